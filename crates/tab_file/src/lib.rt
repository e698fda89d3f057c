//! The table file: a machine's tables as bytes in format 2, and bytes read against a shape, in format 1 or
//! format 2 as its form says.
#![tactic(auto)]

mod body;
mod coming;
mod fault;
mod fields;
mod header;
pub mod laws;
mod numbers;
mod partial;
mod pieces;
mod reading;
mod writing;

pub use fault::{TabErr, TabKind};
pub use pieces::TabReader;
pub use reading::read;
pub use writing::{write, write_head, write_table};

#[cfg(test)]
mod pieces_tests;
#[cfg(test)]
mod tests;
