//! The rows of a chunk.
ghost use Rattle.std.specs.Prelude.{◌≡◌, ◌+◌, ◌*◌, ◌≤◌, ◌∷◌, []};
ghost use Rattle.min_trace.specs.Chunk.{IsChunk, first_step};
ghost use Rattle.min_trace.specs.Record.{records_between};
ghost use Rattle.planner.specs.Rows.{has_row, counted, sum_of, IsOfChunk};

use crate::Counts;
use min_trace::{Chunk, Replay, StepRecord};
use rv_model::Image;
use zk_layout::Air;

/// Whether the step has a row of the air: each has one of Main and one of the air of its operation, and a load and a store
/// one of Align. The rows of Mem and Out aren't those of single steps.
#[inline(always)]
#[tactic(auto, unfolding(crate::specs::Rows::has_row))]
pub fn has_row(air: Air, step: &StepRecord) -> bool
    ensures { result ≡ has_row air step.now }
{
    match air {
        Air::Main => true,
        Air::Binary | Air::Shift | Air::Arith => {
            Air::of_operation(step.op).number() == air.number()
        }
        Air::Align => step.mem.is_some(),
        Air::Mem | Air::Out => false,
    }
}

fn rows_of(step: &StepRecord) -> Counts
    ensures { result ≡ counted (step.now ∷ []) }
{
    Counts {
        steps: u32::from(has_row(Air::Main, step)),
        binary: u32::from(has_row(Air::Binary, step)),
        shift: u32::from(has_row(Air::Shift, step)),
        arith: u32::from(has_row(Air::Arith, step)),
        align: u32::from(has_row(Air::Align, step)),
    }
}

fn sum_of(a: Counts, b: Counts) -> Counts
    requires a { IsOfChunk a }
    requires b { IsOfChunk b }
    ensures { result ≡ sum_of a b }
{
    Counts {
        steps: a.steps + b.steps,
        binary: a.binary + b.binary,
        shift: a.shift + b.shift,
        arith: a.arith + b.arith,
        align: a.align + b.align,
    }
}

/// How many rows the chunk's steps have of each air. It takes no memory.
pub fn count(image: &Image, chunk: &Chunk) -> Counts
    requires { IsChunk image.now chunk.now }
    ensures value { result ≡ counted (records_between image.now (first_step chunk.now.number) chunk.now.steps) }
    ensures few { IsOfChunk result }
{
    let mut replay = Replay::new(image, chunk);
    let mut counts = Counts {
        steps: 0,
        binary: 0,
        shift: 0,
        arith: 0,
        align: 0,
    };
    while let Some(step) = replay.next() {
        counts = sum_of(counts, rows_of(&step));
    }
    counts
}
