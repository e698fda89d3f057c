//! The rows that an image alone determines: those of Rom, and the doublewords of memory that aren't 0 when a run starts.
//! They are found in the bytes of its file and its input, not in what is zero past them.
#![tactic(auto)]

mod initial;
mod laws;
mod rom;

pub use initial::initial_doublewords;
pub use laws::{initial_law, rom_law};
pub use rom::{entry, rom_rows};
