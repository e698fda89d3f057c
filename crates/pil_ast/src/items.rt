//! The items of a namespace.
ghost use Rattle.std.specs.Prelude.{◌≡◌, map, MatchOption};
ghost use Rattle.pil_ast.specs.Tree.{term, line};
ghost use Rattle.pil_ast.specs.Term.{item_at};
ghost use Rattle.pil_ast.specs.Sound.{IsBody, IsNoBody};

use crate::tree::{Expr, Item};
use sqlite_items::at;

/// The expression of an item, where it is an intermediate.
fn body(item: &Item) -> Option<&Expr>
    ensures { MatchOption result (IsNoBody (line item.now)) (λ e. IsBody (line item.now) (term e.now)) }
{
    match item {
        Item::Inter { name: _, value } => Some(value),
        _ => None,
    }
}

/// The expression of the item with this number, where it is an intermediate.
pub fn expression(items: &[Item], item: u32) -> Option<&Expr>
    ensures { MatchOption result (IsNoBody (item_at (map line items.now) item)) (λ e. IsBody (item_at (map line items.now) item) (term e.now)) }
{
    match at(items, item as usize) {
        Some(item) => body(item),
        None => None,
    }
}
