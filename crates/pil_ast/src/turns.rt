//! The order in which the intermediates of a namespace are evaluated, and which of them have a value
//! at the next row too.
ghost use Rattle.std.specs.Prelude.{◌≡◌, ◌<◌, ◌^◌, map, length, IfOk};
ghost use Rattle.pil_ast.specs.Tree.{term, line};
ghost use Rattle.pil_ast.specs.Term.{inter_at};
ghost use Rattle.pil_ast.specs.Sound.{IsAcyclic, NamesOnly};
ghost use Rattle.pil_ast.specs.Order.{NamesInside, IsWhole};
ghost use Rattle.pil_ast.specs.Written.{marked_by};
ghost use Rattle.pil_ast.specs.Turns.{IsPlan, is_marked};

use crate::items::expression;
use crate::order::evaluation_order;
use crate::tree::{Expr, Item};
use sqlite_items::Items;
use std::alloc::{AllocError, Global};

/// An intermediate that is to be evaluated.
#[derive(Clone, Copy)]
pub struct Turn {
    /// The item's number in its namespace.
    pub item: u32,
    /// Whether its expression, with its intermediates written out, has no mark.
    pub ahead: bool,
}

/// Whether a mark stands in the expression with its intermediates written out.
fn has_mark(expr: &Expr, marks: &[bool]) -> bool
    requires { NamesOnly (λ k. k < length marks.now) (term expr.now) }
    ensures { result ≡ marked_by (is_marked marks.now) (term expr.now) }
{
    match expr {
        Expr::Number(_) => false,
        Expr::Column {
            space: _,
            column: _,
            next,
        } => *next,
        Expr::Public(_) => false,
        Expr::Inter {
            space: _,
            item,
            next,
        } => *next || marks[*item as usize],
        Expr::Neg(a) => has_mark(a.get(), marks),
        Expr::Add(a, b) => {
            let left = has_mark(a.get(), marks);
            let right = has_mark(b.get(), marks);
            left || right
        }
        Expr::Sub(a, b) => {
            let left = has_mark(a.get(), marks);
            let right = has_mark(b.get(), marks);
            left || right
        }
        Expr::Mul(a, b) => {
            let left = has_mark(a.get(), marks);
            let right = has_mark(b.get(), marks);
            left || right
        }
    }
}

/// Whether a mark stands in the item's expression with its intermediates written out.
fn item_has_mark(items: &[Item], item: u32, marks: &[bool]) -> bool
    requires { NamesOnly (λ k. k < length marks.now) (inter_at (map line items.now) item) }
    ensures { result ≡ marked_by (is_marked marks.now) (inter_at (map line items.now) item) }
{
    match expression(items, item) {
        Some(value) => has_mark(value, marks),
        None => false,
    }
}

/// The turns of the items of `order`, whose marks are kept in `marks`.
fn turns_of(
    alloc: Global,
    items: &[Item],
    order: &[u32],
    marks: &mut [bool],
) -> Result<Items<Turn>, AllocError>
    requires long { length marks.old ≡ length items.now }
    requires inside { NamesInside (map line items.now) }
    requires acyclic { IsAcyclic (map line items.now) }
    requires order { IsWhole (map line items.now) order.now }
    ensures { IfOk result (λ turns. IsPlan (map line items.now) turns) }
{
    let mut turns = Items::new(alloc);
    for item in order {
        let marked = item_has_mark(items, *item, marks);
        marks[*item as usize] = marked;
        turns.push(Turn {
            item: *item,
            ahead: !marked,
        })?;
    }
    Ok(turns)
}

/// The turns of a namespace with these items. It takes time in proportion to the size of their
/// expressions.
pub fn plan(alloc: Global, items: &[Item]) -> Result<Items<Turn>, AllocError>
    requires few { length items.now < 2 ^ 32 }
    requires inside { NamesInside (map line items.now) }
    requires acyclic { IsAcyclic (map line items.now) }
    ensures { IfOk result (λ turns. IsPlan (map line items.now) turns) }
{
    let order = evaluation_order(alloc, items)?;
    let mut marks = vec![in alloc; false; items.len()]?;
    turns_of(alloc, items, order.as_slice(), &mut marks)
}
