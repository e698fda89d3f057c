//! The tables of a witness as the values that a constraint text speaks of: a namespace's columns are
//! those of the air with its number.
#![tactic(auto)]

mod laws;
mod table_columns;

pub use laws::fits;
pub use table_columns::TableColumns;

#[cfg(test)]
mod tests;
