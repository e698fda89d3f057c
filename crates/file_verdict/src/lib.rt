//! The verdict on a table file that comes in pieces. It keeps one table at a time.
#![tactic(auto)]

mod adding;
mod judging;

pub use judging::FileVerdict;
