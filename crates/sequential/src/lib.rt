//! The tables of a whole run, made one after the other.
#![tactic(auto)]

mod progress;
mod run;
mod whole;

pub use run::sequential;

#[cfg(test)]
mod tests;
