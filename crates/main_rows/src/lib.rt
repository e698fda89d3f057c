//! The tables of Main.
#![tactic(auto)]

mod cells;
mod expansion;

pub use expansion::expand;
