//! A checker of a constraint text that is given the tables' instances one at a time.
#![tactic(auto)]

mod checker;
mod differences;
mod lines;
mod placing;
mod plans;
mod rights;
mod sameness;
mod sizes;
mod whole;

pub use checker::Checker;
pub use whole::first_broken;
