//! A constraint text as a tree, and the value of its expressions at a row.
#![tactic(auto)]

mod columns;
mod items;
mod laws;
mod make;
mod order;
mod reader;
mod shape;
mod tree;
mod turns;
mod values;

pub use columns::Columns;
pub use items::expression;
pub use laws::limit_laws;
pub use make::{add, column, inter, mul, neg, number, public, sub};
pub use tree::{Expr, Item, List, Pil, Place, Space};
pub use turns::{Turn, plan};
pub use values::{RowValues, eval};
