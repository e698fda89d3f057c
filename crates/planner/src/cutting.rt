//! The parts of a job.
ghost use Rattle.std.specs.Prelude.{◌≡◌, ◌≤◌, ◌<◌, ◌^◌, ◌+◌, ◌++◌, length, IfOk, OnOk};
ghost use Rattle.planner.specs.Jobs.{part, parts, job_of};
ghost use Rattle.planner.specs.Track.{IsBefore};

use crate::{Counts, Job, Part};
use gold::Sequence;
use min_trace::MOST_CHUNKS;
use std::alloc::{AllocError, Global};
use zk_layout::Air;

// The rows from low to high of a chunk whose rows begin at `first`, if there are any.
fn push_part(
    taken: &mut Sequence<Part>,
    chunk: u32,
    first: u64,
    low: u64,
    high: u64,
) -> Result<(), AllocError>
    requires above { first ≤ low }
    requires few { high < first + 2 ^ 32 }
    ensures { OnOk result (taken.new ≡ taken.old ++ part chunk first low high) }
{
    if low < high {
        taken.push(Part {
            chunk,
            skip: (low - first) as u32,
            take: (high - low) as u32,
        })?;
    }
    Ok(())
}

// What instance number `instance` takes of the chunks, none of it before chunk number `start`, whose rows begin at `first`.
fn parts_of(
    alloc: Global,
    counts: &[Counts],
    air: Air,
    instance: u32,
    start: u32,
    first: u64,
) -> Result<Sequence<Part>, AllocError>
    requires few { length counts.now ≤ MOST_CHUNKS }
    requires start { IsBefore air counts.now instance start first }
    requires low { first ≤ 2 ^ 32 }
    ensures { IfOk result (λ v. v ≡ parts air counts.now instance) }
{
    let rows = u64::from(air.rows());
    let from = u64::from(instance) * rows;
    let to = from + rows;
    let mut at = first;
    let mut taken = Sequence::new(alloc);
    for chunk in start as usize..counts.len() {
        let end = at + u64::from(counts[chunk].rows_in(air));
        push_part(&mut taken, chunk as u32, at, from.max(at), to.min(end))?;
        at = end;
    }
    Ok(taken)
}

/// Instance number `instance`, which takes nothing of the chunks before chunk number `start`; the air's rows in that
/// chunk begin at `first`.
pub fn make_job(
    alloc: Global,
    counts: &[Counts],
    air: Air,
    instance: u32,
    start: u32,
    first: u64,
) -> Result<Job, AllocError>
    requires few { length counts.now ≤ MOST_CHUNKS }
    requires start { IsBefore air counts.now instance start first }
    requires low { first ≤ 2 ^ 32 }
    ensures { IfOk result (λ j. j ≡ job_of air counts.now instance) }
{
    let parts = parts_of(alloc, counts, air, instance, start, first)?;
    Ok(Job {
        air,
        instance,
        parts,
    })
}
