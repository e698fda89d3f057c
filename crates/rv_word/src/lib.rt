//! The instructions of RV64IM, Zba and Zicond: which 32-bit word stands for which instruction.
//! `decode` and `encode` both follow one relation, `Is` of specs/Is.antt, which is read off a table of rows.
#![tactic(auto)]

mod decoder;
mod encoder;
mod fields;
mod instr;
mod reg;
#[cfg(test)]
mod tests;

pub use decoder::{decode, decoding_law};
pub use encoder::{encode, fits, round_trip};
pub use instr::{Cond, Instr, Kind, OpNo};
pub use reg::Reg;
