//! The tables of a run, made by workers that share a queue of jobs while the run is still made.
#![tactic(auto)]

mod crew;
mod expansion;
mod gate;
mod hands;
mod lead;
mod placing;
mod progress;

pub use expansion::expand_all;
pub use gate::{Gate, NoGate};

#[cfg(test)]
mod tests;
