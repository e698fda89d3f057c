//! The constant columns of the machine's namespaces, of an image and of tables of these sizes.
#![tactic(auto)]

mod cells;
mod sizes;
mod values;

pub use sizes::Sizes;
pub use values::{FixedValues, constants};

#[cfg(test)]
mod tests;
