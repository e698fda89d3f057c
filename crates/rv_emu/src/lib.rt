//! The emulator: it runs an image and publishes the run chunk by chunk.
//! Memory lies in pages, and a step takes memory only for a page.
#![tactic(auto)]

mod emu;
mod laws;
mod stepping;
#[cfg(test)]
mod tests;
mod window;

pub use emu::{Emu, Step};
pub use laws::one_answer;
