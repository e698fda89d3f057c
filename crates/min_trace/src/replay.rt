//! A chunk's steps, one after the other.
ghost use Rattle.std.specs.Prelude.{◌≡◌, ◌+◌, ◌-◌, ◌*◌, ◌<◌, ◌≤◌, ◌^◌, ◌∷◌, [], MatchOption};
ghost use Rattle.std.specs.Option.{IfNone};
ghost use Rattle.min_trace.specs.Chunk.{IsChunk, first_step};
ghost use Rattle.min_trace.specs.Record.{records_between};

use crate::walk::walk;
use crate::{Chunk, STEPS_PER_CHUNK, StepRecord};
use rv_model::{Cpu, Image};
use std::marker::Model;

/// The steps of a chunk that are left. A caller sees it as the list of their records.
#[derive(Drop)]
pub struct Replay<'a> {
    image: &'a Image,
    chunk: &'a Chunk,
    taken: u32,
    at: usize,
    cpu: Cpu,
}

impl<'a> Model for Replay<'a> {
    ghost use Rattle.std.specs.Prelude.{List};
    ghost use Rattle.min_trace.specs.declared.record.StepRecord.{StepRecord};
    ghost use Rattle.min_trace.specs.Chunk.{left, IsReplay};

    ghost Value = { List StepRecord };

    ghost view = { λ r. left r.image.now r.chunk.now r.taken };

    ghost invariant = { λ r. IsReplay r.image.now r.chunk.now r.taken r.at r.cpu };
}

impl<'a> Replay<'a> {
    /// The replay of a chunk of the image's run, from its first step on.
    pub fn new(image: &'a Image, chunk: &'a Chunk) -> Self
        requires { IsChunk image.now chunk.now }
        ensures { result ≡ records_between image.now (first_step chunk.now.number) chunk.now.steps }
    {
        Replay {
            image,
            chunk,
            taken: 0,
            at: 0,
            cpu: chunk.start,
        }
    }

    /// What the next step did; None after the last.
    pub fn next(&mut self) -> Option<StepRecord>
        ensures next { MatchOption result (self.old ≡ []) (λ r. self.old ≡ r ∷ self.new) }
        ensures end { IfNone result (self.new ≡ []) }
    {
        let chunk = self.chunk;
        if self.taken == chunk.steps {
            return None;
        }
        let step = STEPS_PER_CHUNK * chunk.number + self.taken;
        let (made, at) = walk(self.image, &chunk.olds, self.at, step, &mut self.cpu);
        self.at = at;
        self.taken += 1;
        Some(made)
    }
}
