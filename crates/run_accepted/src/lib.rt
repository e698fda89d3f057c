//! Completeness of the constraints: the sequential tables of each run that halts are well-formed and accepted. A crate of laws
//! alone.
#![tactic(auto)]

mod laws;

pub use laws::completeness;
