//! Where a line is broken.
use gold::Sequence;

/// Where a line is first broken.
#[derive(Debug, Drop)]
pub enum Broken {
    /// An identity whose sides differ at a row of an instance, or an `in` whose tuple there isn't on
    /// the right.
    At {
        line: u32,
        instance: u32,
        row: u32,
    },
    /// An `is` whose sides have a tuple so often.
    Counts {
        line: u32,
        tuple: Sequence<u64>,
        left: u64,
        right: u64,
    },
}
