//! Whether an identity of a constraint text holds at each row, and where it is broken first.
#![tactic(auto)]

mod broken;
mod rows;

pub use broken::Broken;
pub use rows::{check_identity, check_rows, check_table};

#[cfg(test)]
mod tests;
