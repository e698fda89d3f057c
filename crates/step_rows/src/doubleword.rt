//! The doublewords of memory that aren't 0 when a run starts.

/// A doubleword of memory.
#[derive(Clone, Copy, Debug, PartialEq, Eq)]
pub struct Doubleword {
    /// Its byte address divided by 8.
    pub number: u32,
    pub value: u64,
}
