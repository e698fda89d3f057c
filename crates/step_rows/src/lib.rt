//! The rows that a step has in each air, as definitions, and Rom's, with the tuples that steps tell other tables.
#![tactic(auto)]

mod doubleword;
mod key;
mod rom_row;

pub use doubleword::Doubleword;
pub use key::REGISTERS;
pub use rom_row::RomRow;
