//! Constraint texts: read, or refused by the first rule that they break, at its least place.
#![tactic(auto)]

mod cycles;
mod error;
mod laws;
mod reading;
mod resolve;
mod rules;
#[cfg(test)]
mod tests;

pub use error::{PilErr, PilKind};
pub use laws::{computed_reads, one_answer, printed_reads_back, readings_are_sound};
pub use pil_print::print;
pub use reading::read;
