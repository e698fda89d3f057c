//! Where the lines of a constraint text stand, so that each is found at once.
#![tactic(auto)]

mod places;

pub use places::{LinePlace, line_at, line_places};
