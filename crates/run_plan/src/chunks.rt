//! The chunks and jobs of a run.
ghost use Rattle.std.specs.Prelude.{◌≡◌, ◌≤◌, ◌<◌, ◌^◌, ◌+◌};

use crate::additions::{MOST, additions};
use elf_load::load;
use planner::{Job, Plan, count};
use rv_emu::{Emu, Step};
use rv_model::Image;
use std::alloc::Global;
use std::io::{self, ErrorKind};
use std::sync::Arc;

/// A run, cut.
#[derive(Drop)]
pub struct Planned {
    /// How many chunks it has.
    pub chunks: u32,
    /// The jobs, in the order in which they are handed out.
    pub jobs: Vec<Job>,
}

// Adds jobs behind the others.
fn add_jobs(jobs: &mut Vec<Job>, more: Vec<Job>) -> io::Result<()> {
    for job in more {
        jobs.push(job)?;
    }
    Ok(())
}

/// The jobs of an image's run, which halts within `limit` steps; `Other` where it doesn't.
fn plan_of_run(alloc: Global, image: Image, limit: u32) -> io::Result<Planned> {
    let image = Arc::new(alloc, image)?;
    let mut emu = Emu::new(alloc, Arc::try_clone(&image)?, limit)?;
    let mut plan = Plan::new(alloc);
    let mut jobs = Vec::new(alloc);
    loop {
        let (chunk, last) = match emu.next_chunk() {
            Ok(Step::Chunk(chunk)) => (chunk, false),
            Ok(Step::Last(chunk, _)) => (chunk, true),
            Err(_) => return Err(ErrorKind::Other.into()),
        };
        add_jobs(&mut jobs, plan.add(&count(&image, &chunk))?)?;
        if last {
            add_jobs(&mut jobs, plan.finish()?)?;
            return Ok(Planned {
                chunks: chunk.number + 1,
                jobs,
            });
        }
    }
}

/// The jobs of a run of `count` additions and the call that halts; `InvalidInput` for more of them than are loaded.
pub fn plan_of(alloc: Global, count: u32) -> io::Result<Planned> {
    if count > MOST {
        return Err(ErrorKind::InvalidInput.into());
    }
    let file = additions(alloc, count)?;
    match load(alloc, &file, &[]) {
        Ok(image) => plan_of_run(alloc, image, count + 2),
        Err(_) => Err(ErrorKind::InvalidData.into()),
    }
}
