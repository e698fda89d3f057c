//! The program that a number, a kind and a size make: instructions from draws, as an ELF file.
#![tactic(auto)]

mod draws;
mod elf;
mod kind;
mod laws;
mod program;
#[cfg(test)]
mod tests;

pub use kind::DemoKind;
pub use laws::{demo_runs, demo_words};
pub use program::demo_elf;
