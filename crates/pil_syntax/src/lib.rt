//! The syntax of the constraint language: the statements that the tokens of a file spell, with their
//! parentheses and the places that a later refusal names.
#![tactic(auto)]

mod declaring;
mod expression;
mod failure;
mod laws;
mod line;
mod pieces;
mod reading;
mod tree;

pub use laws::{files_are_decided, moved_tokens, printed_parentheses, runs_are_files};
pub use reading::read_syntax;
pub use tree::{
    ColumnKind, Declaration, Expr, ExprList, Ident, Number, Reference, Selector, Size, Statement,
    Syntax, SyntaxErr, SyntaxErrKind,
};

#[cfg(test)]
mod tests;
