//! The steps of a job.
ghost use Rattle.std.specs.Prelude.{◌≡◌, ◌+◌, ◌≤◌, ◌++◌, ◌∷◌, [], ℕ, take, drop, map, length, All, MatchOption, IfOk, OnOk};
ghost use Rattle.std.specs.Option.{IfNone};
ghost use Rattle.min_trace.specs.Chunk.{IsChunk};
ghost use Rattle.planner.specs.Rows.{with_row};
ghost use Rattle.run_rows.specs.Runs.{values_of, IsJobOf};
ghost use Rattle.run_rows.specs.Gathered.{steps_of, named_in, all_named};

use min_trace::{Chunk, Replay, StepRecord};
use planner::{Job, Part, has_row, rows_are_counted, rows_of_a_job};
use rv_model::Image;
use std::alloc::{AllocError, Global};
use std::sync::Arc;
use zk_layout::Air;

/// What a row is made of: a value that is taken of a step's record.
pub trait FromStep: Sized {
    ghost use Rattle.min_trace.specs.declared.record.StepRecord.{StepRecord};

    ghost taken: { StepRecord → Self };

    fn from_step(step: &StepRecord) -> Self
        ensures { result ≡ taken step.now };
}

// The next step that has a row of the air; None where none is left.
#[inline(always)]
fn next_with_row(replay: &mut Replay, air: Air) -> Option<StepRecord>
    ensures next { MatchOption result (with_row air replay.old ≡ []) (λ r. with_row air replay.old ≡ r ∷ with_row air replay.new) }
    ensures end { IfNone result (with_row air replay.new ≡ []) }
{
    while let Some(step) = replay.next() {
        if has_row(air, &step) {
            return Some(step);
        }
    }
    None
}

fn pass_over(replay: &mut Replay, air: Air, n: u32)
    ensures { with_row air replay.new ≡ drop n (with_row air replay.old) }
{
    for i in 0..n {
        let _ = next_with_row(replay, air);
    }
}

fn take_some<T: FromStep + Drop>(
    replay: &mut Replay,
    air: Air,
    n: u32,
    found: &mut Vec<T>,
) -> Result<(), AllocError>
    ensures { OnOk result (found.new.items ≡ found.old.items ++ map T.taken (take n (with_row air replay.old))) }
{
    for i in 0..n {
        if let Some(step) = next_with_row(replay, air) {
            found.push(T::from_step(&step))?;
        }
    }
    Ok(())
}

// What a part names of its chunk.
fn take_part<T: FromStep + Drop>(
    image: &Image,
    chunk: &Chunk,
    air: Air,
    part: &Part,
    found: &mut Vec<T>,
) -> Result<(), AllocError>
    requires { IsChunk image.now chunk.now }
    ensures { OnOk result (found.new.items ≡ found.old.items ++ map T.taken (named_in air image.now part.now chunk.now)) }
{
    let mut replay = Replay::new(image, chunk);
    pass_over(&mut replay, air, part.skip);
    take_some(&mut replay, air, part.take, found)
}

fn take_parts<T: FromStep + Drop>(
    image: &Image,
    chunks: &[Arc<Chunk>],
    air: Air,
    parts: &[Part],
    found: &mut Vec<T>,
) -> Result<(), AllocError>
    requires chunks { All (IsChunk image.now) (values_of chunks.now) }
    requires same { length chunks.now ≡ length parts.now }
    ensures { OnOk result (found.new.items ≡ found.old.items ++ map T.taken (all_named air image.now parts.now (values_of chunks.now))) }
{
    for i in 0..parts.len() {
        take_part(image, &chunks[i], air, &parts[i], found)?;
    }
    Ok(())
}

/// What is taken of the steps of a job's instance: of all the run's steps that have a row of the air, those that its parts
/// name of their chunks.
pub fn gather<T: FromStep + Drop>(
    alloc: Global,
    image: &Image,
    job: &Job,
    chunks: &[Arc<Chunk>],
) -> Result<Vec<T>, AllocError>
    requires { (n : ℕ) × IsJobOf image.now n job.now (values_of chunks.now) }
    ensures { IfOk result (λ v. (n : ℕ) → IsJobOf image.now n job.now (values_of chunks.now) → v.items ≡ map T.taken (steps_of job.now.air image.now n job.now.instance)) }
{
    rows_are_counted();
    rows_of_a_job::<StepRecord>();
    let mut found = Vec::with_capacity(alloc, job.air.rows() as usize)?;
    take_parts(image, chunks, job.air, job.parts.as_slice(), &mut found)?;
    Ok(found)
}
