//! The emulator's memory: a map from the number of a doubleword to its value, which begins as the image's.
//! A page of 512 doublewords is made when one of them is first set. Pages stand by their number in a table as long as the
//! greatest of them asks for, so what is never written takes at most a place there.
#![tactic(auto)]

mod memory;
mod page;
#[cfg(test)]
mod tests;

pub use memory::Memory;
