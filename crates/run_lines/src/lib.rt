//! Completeness of the constraints: the rows of a run that halts are accepted. A crate of laws alone.
#![tactic(auto)]

mod laws;

pub use laws::run_holds;
