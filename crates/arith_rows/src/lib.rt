//! The tables of Arith.
#![tactic(auto)]

mod carrying;
mod cells;
mod expansion;
mod made;
mod sizes;

pub use expansion::expand;
