//! A line of a constraint text for people: the namespace where it stands, and its statement as it is printed.
#![tactic(auto)]

mod cut;
mod finding;

pub use finding::{LineText, line_text};
