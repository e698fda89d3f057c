//! Plans of made-up counts.
ghost use Rattle.std.specs.Prelude.{◌≡◌, ◌≤◌, ◌<◌, ◌^◌};

use planner::{Counts, Job, Plan};
use std::alloc::Global;
use std::io::{self, ErrorKind};

/// A plan takes at most so many chunks.
const MOST: u32 = 1 << 22;

/// Counts that a plan takes for a full chunk. No run has them: a full chunk has 1,024 operations together.
const FULL: Counts = Counts {
    steps: 1024,
    binary: 424,
    shift: 200,
    arith: 100,
    align: 300,
};

/// Jobs, summed up.
#[derive(Clone, Copy)]
pub struct Tally {
    pub jobs: u64,
    /// (instance + chunk) * take + skip, summed over all parts modulo 2^64.
    pub sum: u64,
}

fn sum_of(job: &Job) -> u64 {
    let mut sum: u64 = 0;
    for part in job.parts.as_slice() {
        let place = u64::from(job.instance) + u64::from(part.chunk);
        let term = place.wrapping_mul(u64::from(part.take));
        sum = sum.wrapping_add(term).wrapping_add(u64::from(part.skip));
    }
    sum
}

impl Tally {
    fn with(self, jobs: &[Job]) -> Tally {
        let mut tally = self;
        for job in jobs {
            tally.jobs = tally.jobs.wrapping_add(1);
            tally.sum = tally.sum.wrapping_add(sum_of(job));
        }
        tally
    }
}

/// The jobs of a plan of `count` chunks with these counts, summed up; `InvalidInput` for more than a plan takes.
pub fn tally_of(alloc: Global, count: u32) -> io::Result<Tally> {
    if count > MOST {
        return Err(ErrorKind::InvalidInput.into());
    }
    let mut plan = Plan::new(alloc);
    let mut tally = Tally { jobs: 0, sum: 0 };
    for _ in 0..count {
        tally = tally.with(&plan.add(&FULL)?);
    }
    Ok(tally.with(&plan.finish()?))
}
