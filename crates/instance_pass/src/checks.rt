//! What a line asks of each row.
use crate::senders::Sender;

/// What a line asks of each row of a namespace, in steps of the namespace's program.
#[derive(Drop)]
pub enum Check {
    /// Two steps have one value.
    Equal {
        space: u32,
        left: usize,
        right: usize,
    },
    /// The tuple of a selected row stands in the table with this number.
    Among {
        left: Sender,
        table: usize,
    },
    /// Nothing: an `is` speaks of all rows at once.
    Nothing,
}
