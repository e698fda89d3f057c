//! A part of a run.
use rv_model::Cpu;
use std::marker::Model;

/// The steps of a chunk; a run's last may have fewer.
pub const STEPS_PER_CHUNK: u32 = 1024;

/// A run of fewer than 2^32 steps has at most so many chunks.
pub const MOST_CHUNKS: u32 = 1 << 22;

/// The steps of a run from number `STEPS_PER_CHUNK * number` on.
#[derive(Debug, Drop)]
pub struct Chunk {
    /// Its place in the run, below `MOST_CHUNKS`.
    pub number: u32,
    /// pc and registers before its first step.
    pub start: Cpu,
    /// `STEPS_PER_CHUNK`, or fewer where the last of them halts.
    pub steps: u32,
    /// For each load and store in order, the doubleword that it touches as it was before.
    pub olds: Vec<u64>,
}

impl Model for Chunk {
    ghost use Rattle.min_trace.specs.Chunk.{Piece};

    ghost Value = { Piece };

    ghost view = { λ c. record { number = c.number; start = c.start; steps = c.steps; olds = c.olds.items } };
}
