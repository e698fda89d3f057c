//! Tickets.
use gold::Sequence;
use min_trace::Chunk;
use planner::Job;
use std::alloc::Global;
use std::sync::Arc;

/// What stands in the queue.
#[derive(Debug, Drop)]
pub enum Ticket {
    /// A job, and the chunks that its parts name, in order.
    Work(Job, Sequence<Arc<Chunk, Global>>),
    /// Whoever takes it ends.
    Stop,
}
