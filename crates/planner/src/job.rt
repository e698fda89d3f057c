//! Jobs.
use gold::Sequence;
use zk_layout::Air;

/// Of a chunk's rows of an air, pass over `skip` and take the next `take`, which is at least 1.
#[derive(Clone, Copy, Debug, PartialEq, Eq)]
pub struct Part {
    /// The chunk's place in the run.
    pub chunk: u32,
    pub skip: u32,
    pub take: u32,
}

/// An instance of an air, by what it takes of the chunks that have rows of it. With N rows per instance, instance i takes
/// the rows i N to i N + N - 1 of the air, the last instance those that there are.
#[derive(Debug, Drop)]
pub struct Job {
    pub air: Air,
    /// The instance's number, from 0.
    pub instance: u32,
    /// What it takes, in order of the chunks.
    pub parts: Sequence<Part>,
}
