//! For each item of a namespace the items that name it.
ghost use Rattle.std.specs.Prelude.{◌≡◌, ◌<◌, ◌^◌, ◌++◌, [], map, length, replicate, All, IfOk, OnOk};
ghost use Rattle.pil_ast.specs.Tree.{term, line};
ghost use Rattle.pil_ast.specs.Term.{inter_at};
ghost use Rattle.pil_ast.specs.Order.{NamesInside};
ghost use Rattle.pil_cycles.specs.Users.{named, AreUsers, AddsUser};

use pil_ast::{Expr, Item, expression};
use sqlite_items::Items;
use std::alloc::{AllocError, Global};

/// Puts the intermediates that the expression names at the end of the list.
fn push_named(expr: &Expr, names: &mut Items<u32>) -> Result<(), AllocError>
    ensures { OnOk result (names.new ≡ names.old ++ named (term expr.now)) }
{
    match expr {
        Expr::Number(_) => Ok(()),
        Expr::Column { .. } => Ok(()),
        Expr::Public(_) => Ok(()),
        Expr::Inter {
            space: _,
            item,
            next: _,
        } => names.push(*item),
        Expr::Neg(a) => push_named(a.get(), names),
        Expr::Add(a, b) => {
            push_named(a.get(), names)?;
            push_named(b.get(), names)
        }
        Expr::Sub(a, b) => {
            push_named(a.get(), names)?;
            push_named(b.get(), names)
        }
        Expr::Mul(a, b) => {
            push_named(a.get(), names)?;
            push_named(b.get(), names)
        }
    }
}

/// The intermediates that the item's expression names.
fn named_by(alloc: Global, items: &[Item], item: u32) -> Result<Items<u32>, AllocError>
    ensures { IfOk result (λ names. names ≡ named (inter_at (map line items.now) item)) }
{
    let mut names = Items::new(alloc);
    if let Some(value) = expression(items, item) {
        push_named(value, &mut names)?;
    }
    Ok(names)
}

/// Adds a user to each item of the list.
fn add_user(names: &[u32], user: u32, users: &mut [Items<u32>]) -> Result<(), AllocError>
    requires { All (λ k. k < length users.old) names.now }
    ensures { OnOk result (AddsUser names.now user users.old users.new) }
{
    for name in names {
        users[*name as usize].push(user)?;
    }
    Ok(())
}

fn empty_lists(alloc: Global, count: usize) -> Result<Vec<Items<u32>>, AllocError>
    ensures { IfOk result (λ lists. lists.items ≡ replicate count []) }
{
    let mut lists = Vec::new(alloc);
    for _ in 0..count {
        lists.push(Items::new(alloc))?;
    }
    Ok(lists)
}

/// The users of each item.
pub fn users_of(alloc: Global, items: &[Item]) -> Result<Vec<Items<u32>>, AllocError>
    requires few { length items.now < 2 ^ 32 }
    requires inside { NamesInside (map line items.now) }
    ensures { IfOk result (λ users. AreUsers (map line items.now) users.items) }
{
    let mut users = empty_lists(alloc, items.len())?;
    for item in 0..items.len() as u32 {
        let names = named_by(alloc, items, item)?;
        add_user(names.as_slice(), item, &mut users)?;
    }
    Ok(users)
}
