//! A run so far.
ghost use Rattle.std.specs.Prelude.{◌+◌, IfOk, OnOk};
ghost use Rattle.rv_model.specs.Run.{RunsTo};
ghost use Rattle.min_trace.specs.Chunk.{IsChunk, first_step};
ghost use Rattle.row_bench.specs.Progress.{IsAt};

use crate::whole::Whole;
use gold::Table;
use mem_rows::Accesses;
use min_trace::Chunk;
use planner::{Job, Plan, count, jobs_handed_out};
use run_rows::chunks_of_a_run;
use rv_model::{Image, Public};
use std::alloc::{AllocError, Global};
use std::sync::Arc;

/// The tables of Main and of Mem of a run that halted.
#[derive(Drop)]
pub struct Made {
    pub steps: u32,
    pub main: Vec<Table>,
    pub mem: Vec<Table>,
}

/// What is kept of a run's first chunks: themselves, the jobs that they make whole, and their accesses.
#[derive(Drop)]
pub struct Progress {
    alloc: Global,
    chunks: Vec<Arc<Chunk>>,
    plan: Plan,
    jobs: Vec<Job>,
    accesses: Accesses,
}

impl Progress {
    /// Before the first chunk of the image's run.
    pub fn new(alloc: Global, image: &Image) -> Result<Progress, AllocError>
        ensures { IfOk result (IsAt image.now 0) }
    {
        Ok(Progress {
            alloc,
            chunks: Vec::new(alloc),
            plan: Plan::new(alloc),
            jobs: Vec::new(alloc),
            accesses: Accesses::new(alloc, image)?,
        })
    }

    /// Adds the next chunk. After a refusal the progress is to be dropped.
    pub fn add(&mut self, image: &Image, chunk: Chunk) -> Result<(), AllocError>
        requires chunk { IsChunk image.now chunk }
        requires next { IsAt image.now (first_step chunk.number) self.old }
        ensures { OnOk result (IsAt image.now (first_step chunk.number + chunk.steps) self.new) }
    {
        chunks_of_a_run();
        jobs_handed_out();
        let counts = count(image, &chunk);
        self.accesses.add_chunk(image, &chunk)?;
        let mut jobs = self.plan.add(&counts)?;
        self.jobs.append(&mut jobs)?;
        let chunk = Arc::new(self.alloc, chunk)?;
        self.chunks.push(chunk)?;
        Ok(())
    }

    /// The tables of Main and of Mem of the run, which halts with so many steps and publishes this.
    pub fn finish(self, image: &Image, steps: u32, public: &Public) -> Result<Made, AllocError>
        requires at { IsAt image.now steps self }
        requires halts { RunsTo image.now steps public.now }
    {
        let Progress {
            alloc,
            chunks,
            mut plan,
            mut jobs,
            accesses,
        } = self;
        let mem = accesses.finish(public)?;
        jobs.append(&mut plan.finish()?)?;
        let whole = Whole {
            alloc,
            chunks,
            jobs,
            steps,
        };
        let main = whole.main_tables(image)?;
        Ok(Made { steps, main, mem })
    }
}
