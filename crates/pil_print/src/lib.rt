//! A constraint text as it is printed.
#![tactic(auto)]

mod expressions;
mod items;
mod laws;
mod lists;
mod printing;
mod tables;

pub use laws::{printed_meaning, printed_text, printed_tokens};
pub use printing::print;
