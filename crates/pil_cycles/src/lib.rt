//! Which intermediates of a namespace depend on themselves.
#![tactic(auto)]

mod components;
mod cycles;
mod finish;
mod laws;
mod users;

pub use cycles::on_cycles;
pub use laws::{cycles_are_decided, ranked_have_no_cycle, without_cycle_are_ranked};

#[cfg(test)]
mod tests;
