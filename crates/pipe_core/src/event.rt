//! Events, and why one is refused.
ghost use Rattle.std.specs.Prelude.{◌≡◌};
ghost use Rattle.pipe_core.specs.declared.event.EventErr.TheVariants as errors;

use std::alloc::{AllocError, AllocFailed};
use zk_layout::Air;

/// An instance of an air.
#[derive(Clone, Copy, PartialEq, Eq, Debug)]
pub struct JobId {
    pub air: Air,
    /// The instance's number, from 0.
    pub instance: u32,
}

/// What stands in the queue.
#[derive(Clone, Copy, PartialEq, Eq, Debug)]
pub enum CoreTicket {
    Work(JobId),
    /// Whoever takes it ends.
    Stop,
}

/// One step. A pass is named by its number: the first has number 0.
#[derive(Clone, Copy, PartialEq, Eq, Debug)]
pub enum Event {
    /// The ticket goes to the back of the queue.
    Push { pass: u32, ticket: CoreTicket },
    /// The pass takes the ticket at the front, in place of a Stop that it may hold.
    Pop { pass: u32 },
    /// The job that the pass holds goes to the end of those that it keeps.
    Keep { pass: u32 },
    /// The pass with the next number is made.
    Split { pass: u32 },
    /// What `from` keeps follows what `into` keeps, and `from` is gone.
    Join { into: u32, from: u32 },
}

/// Why an event is refused: the first of these that applies.
#[derive(Clone, Copy, PartialEq, Eq, Debug)]
pub enum EventErr {
    /// There is no pass with this number, or a pass was to be joined to itself.
    NoPass(u32),
    /// The queue holds its capacity.
    Full,
    /// The queue holds nothing.
    Empty,
    /// The pass, which is to take a ticket or to be gone, holds a job.
    Holds(u32),
    /// The pass holds no job that it could keep.
    HoldsNone(u32),
    /// The pass with the last number, 4294967295, was made.
    LastPass,
    NoMemory,
}

impl From<AllocError> for EventErr {
    ghost from_gives = { λ _ e. e ≡ errors.NoMemory };

    fn from(_refused: AllocError) -> EventErr {
        EventErr::NoMemory
    }
}

impl<T: Drop> From<AllocFailed<T>> for EventErr {
    ghost from_gives = { λ _ e. e ≡ errors.NoMemory };

    fn from(_refused: AllocFailed<T>) -> EventErr {
        EventErr::NoMemory
    }
}
