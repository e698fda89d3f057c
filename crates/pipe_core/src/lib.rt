//! The queue of jobs and the passes of those who share it, as one value: an event is one step of the queue or of a pass.
//! It says what the steps of the running queue come to, in whatever order threads take them.
#![tactic(auto)]

mod event;
mod lists;
mod pipe;

pub use event::{CoreTicket, Event, EventErr, JobId};
pub use pipe::Core;

#[cfg(test)]
mod tests;
