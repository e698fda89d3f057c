//! The order in which a search is done with the items of a namespace: each after those that it names,
//! but for those from which the search came to it.
ghost use Rattle.std.specs.Prelude.{◌≡◌, ◌<◌, ◌^◌, ◌↔◌, false, Some, [], map, length, slice_get, IfOk, OnOk, IsTrue, MatchOption};
ghost use Rattle.pil_ast.specs.Tree.{term, line};
ghost use Rattle.pil_ast.specs.Term.{inter_at};
ghost use Rattle.pil_ast.specs.Sound.{NamesOnly, Names};
ghost use Rattle.pil_ast.specs.Order.{NamesInside};
ghost use Rattle.pil_cycles.specs.Paths.{NamesAt};
ghost use Rattle.pil_cycles.specs.Finish.{IsFinished, IsFound, IsVisit, KeepsFound};

use pil_ast::{Expr, Item, expression};
use sqlite_items::Items;
use std::alloc::{AllocError, Global};

fn is_found(found: &[bool], item: u32) -> bool
    ensures { IsTrue result ↔ IsFound found.now item }
{
    matches!(found.get(item as usize), Some(true))
}

/// An intermediate that the expression names and that isn't found yet.
fn new_in(expr: &Expr, found: &[bool]) -> Option<u32>
    requires { NamesOnly (λ k. k < length found.now) (term expr.now) }
    ensures { MatchOption result (NamesOnly (IsFound found.now) (term expr.now)) (λ k. Names (term expr.now) k × (k < length found.now) × ¬ IsFound found.now k) }
{
    match expr {
        Expr::Number(_) => None,
        Expr::Column { .. } => None,
        Expr::Public(_) => None,
        Expr::Inter {
            space: _,
            item,
            next: _,
        } => {
            if is_found(found, *item) {
                None
            } else {
                Some(*item)
            }
        }
        Expr::Neg(a) => new_in(a.get(), found),
        Expr::Add(a, b) => match new_in(a.get(), found) {
            Some(item) => Some(item),
            None => new_in(b.get(), found),
        },
        Expr::Sub(a, b) => match new_in(a.get(), found) {
            Some(item) => Some(item),
            None => new_in(b.get(), found),
        },
        Expr::Mul(a, b) => match new_in(a.get(), found) {
            Some(item) => Some(item),
            None => new_in(b.get(), found),
        },
    }
}

/// An intermediate that the item's expression names and that isn't found yet.
fn new_in_item(items: &[Item], item: u32, found: &[bool]) -> Option<u32>
    requires { NamesOnly (λ k. k < length found.now) (inter_at (map line items.now) item) }
    ensures { MatchOption result (NamesOnly (IsFound found.now) (inter_at (map line items.now) item)) (λ k. Names (inter_at (map line items.now) item) k × (k < length found.now) × ¬ IsFound found.now k) }
{
    match expression(items, item) {
        Some(value) => new_in(value, found),
        None => None,
    }
}

/// Puts an item at the order's end, after all that a search from it finds.
fn visit(
    alloc: Global,
    items: &[Item],
    root: u32,
    found: &mut [bool],
    order: &mut Items<u32>,
) -> Result<(), AllocError>
    requires root { root < length items.now }
    requires inside { NamesInside (map line items.now) }
    requires search { IsVisit (NamesAt (map line items.now)) (length items.now) found.old [] order.old }
    ensures search { OnOk result (IsVisit (NamesAt (map line items.now)) (length items.now) found.new [] order.new) }
    ensures keeps { OnOk result (KeepsFound found.old found.new) }
    ensures found { OnOk result (IsFound found.new root) }
{
    if is_found(found, root) {
        return Ok(());
    }
    let mut stack = Items::new(alloc);
    found[root as usize] = true;
    stack.push(root)?;
    while let Some(item) = stack.pop() {
        match new_in_item(items, item, found) {
            Some(named) => {
                found[named as usize] = true;
                stack.push(item)?;
                stack.push(named)?;
            }
            None => {
                order.push(item)?;
            }
        }
    }
    Ok(())
}

/// Visits each item in turn.
fn visit_all(
    alloc: Global,
    items: &[Item],
    found: &mut [bool],
    order: &mut Items<u32>,
) -> Result<(), AllocError>
    requires few { length items.now < 2 ^ 32 }
    requires inside { NamesInside (map line items.now) }
    requires search { IsVisit (NamesAt (map line items.now)) (length items.now) found.old [] order.old }
    ensures { OnOk result (IsFinished (NamesAt (map line items.now)) (length items.now) order.new) }
{
    for root in 0..items.len() as u32 {
        visit(alloc, items, root, found, order)?;
    }
    Ok(())
}

/// All items of a namespace, in such an order.
pub fn finished(alloc: Global, items: &[Item]) -> Result<Items<u32>, AllocError>
    requires few { length items.now < 2 ^ 32 }
    requires inside { NamesInside (map line items.now) }
    ensures { IfOk result (λ order. IsFinished (NamesAt (map line items.now)) (length items.now) order) }
{
    let mut found = vec![in alloc; false; items.len()]?;
    let mut order = Items::new(alloc);
    visit_all(alloc, items, &mut found, &mut order)?;
    Ok(order)
}
