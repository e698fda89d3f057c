//! The commands: what the whole program does between its words and its status, over any host.
#![tactic(auto)]

mod checking;
mod commands;
mod demo;
mod emulation;
mod ending;
mod files;
mod judging;
mod laws;
mod loading;
mod printing;
mod report;
mod running;
mod shown;
mod tables;
#[cfg(test)]
mod tests;
mod witnessing;
mod workers;
mod writing;

pub use checking::pil_call;
pub use commands::top;
pub use demo::demo_call;
pub use demo_program::demo_elf;
pub use judging::check_call;
pub use laws::{headline, one_outcome};
pub use printing::print_call;
pub use running::run_call;
pub use shown::broken_text;
pub use wit_pool::{Gate, NoGate};
pub use witnessing::{witness_call, witness_one};
pub use zk_words::{DemoKind, Status, Which};
