//! The tables of Binary and Shift.
#![tactic(auto)]

mod binary;
mod expansion;
mod shift;

pub use expansion::expand;
