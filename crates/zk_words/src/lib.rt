//! The words of the command line, the statuses that a command ends with, and the report lines and the sentences of its refusals.
#![tactic(auto)]

mod command;
mod line;
mod sentence;
mod status;

pub use command::{Command, MOST_WORKERS, one_command, read_words};
pub use demo_program::DemoKind;
pub use line::status_line;
pub use status::{Status, Which};
