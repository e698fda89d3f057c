//! A queue of jobs that threads share under a rule: whoever takes a job knows that it is one of the run's plan, and that
//! the chunks that come with it are the run's. Whoever ends up with all shares knows that all that was pushed was taken.
#![tactic(auto)]

mod queue;
mod rule;
mod steps;
mod ticket;

pub use queue::{Full, JobQueue, PassBack};
pub use rule::{Pass, View};
pub use ticket::Ticket;

#[cfg(test)]
mod tests;
