//! A run so far.
ghost use Rattle.std.specs.Prelude.{◌≡◌, ◌+◌, ◌++◌, ◌∷◌, [], ℕ, All, IfOk, OnOk};
ghost use Rattle.rv_model.specs.Image.{Img};
ghost use Rattle.min_trace.specs.Chunk.{IsChunk, first_step};
ghost use Rattle.mem_rows.specs.Rows.{mem_tables};
ghost use Rattle.mem_rows.specs.Kept.{KeepsTo};
ghost use Rattle.planner.specs.Jobs.{handed, finished, IsWholeIn};
ghost use Rattle.run_rows.specs.Runs.{counts_to};
ghost use Rattle.job_queue.specs.Truth.{IsTrueOf};
ghost use Rattle.wit_pool.specs.Jobs.{jobs_of};
ghost use Rattle.wit_pool.specs.Progress.{HasChunks, IsAt, IsReady};

use gold::{Sequence, Table};
use job_queue::Ticket;
use mem_rows::Accesses;
use min_trace::Chunk;
use planner::{Job, Plan, count, jobs_handed_out};
use run_rows::chunks_of_a_run;
use run_tables::named;
use rv_model::{Image, Public};
use std::alloc::{AllocError, Global};
use std::sync::Arc;

/// What is kept of a run's first chunks: themselves, their counts, and their accesses.
#[derive(Drop)]
pub struct Progress {
    alloc: Global,
    chunks: Vec<Arc<Chunk>>,
    plan: Plan,
    accesses: Accesses,
}

impl Progress {
    /// Before the first chunk of the image's run.
    pub fn new(alloc: Global, image: &Image) -> Result<Progress, AllocError>
        ensures { IfOk result (IsAt image.now 0) }
    {
        Ok(Progress {
            alloc,
            chunks: Vec::new(alloc),
            plan: Plan::new(alloc),
            accesses: Accesses::new(alloc, image)?,
        })
    }

    /// Adds the next chunk, and hands out the jobs that it makes whole. After a refusal the progress is to be dropped.
    pub fn add(&mut self, image: &Image, chunk: Chunk) -> Result<Vec<Job>, AllocError>
        requires chunk { IsChunk image.now chunk }
        requires next { IsAt image.now (first_step chunk.number) self.old }
        ensures next { OnOk result (IsAt image.now (first_step chunk.number + chunk.steps) self.new) }
        ensures whole { IfOk result (λ v. All (IsWholeIn (counts_to image.now (first_step chunk.number + chunk.steps))) v.items) }
        ensures jobs { IfOk result (λ v. handed [] (counts_to image.now (first_step chunk.number + chunk.steps)) ≡ handed [] (counts_to image.now (first_step chunk.number)) ++ v.items) }
    {
        chunks_of_a_run();
        jobs_handed_out();
        let counts = count(image, &chunk);
        self.accesses.add_chunk(image, &chunk)?;
        let jobs = self.plan.add(&counts)?;
        let chunk = Arc::new(self.alloc, chunk)?;
        self.chunks.push(chunk)?;
        Ok(jobs)
    }

    /// The ticket of a job that was handed out.
    pub fn ticket(&self, job: Job, image: &Image) -> Result<Ticket, AllocError>
        requires { (n : ℕ) × HasChunks image.now n self.now.chunks.items × IsReady image.now n job }
        ensures truth { IfOk result (IsTrueOf image.now) }
        ensures job { IfOk result (λ t. jobs_of (t ∷ []) ≡ job ∷ []) }
    {
        let chunks = named(self.alloc, &job, &self.chunks)?;
        Ok(Ticket::Work(job, Sequence::from_vec(chunks)))
    }

    /// Hands out the jobs that are left at the end of a run.
    pub fn last_jobs(&mut self) -> Result<Vec<Job>, AllocError>
        ensures jobs { IfOk result (λ v. v.items ≡ finished self.old.plan) }
        ensures same { (self.new.chunks ≡ self.old.chunks) × (self.new.accesses ≡ self.old.accesses) }
    {
        self.plan.finish()
    }

    /// The Mem tables of a run that publishes this, all of whose chunks were added.
    pub fn mem_tables(self, public: &Public) -> Result<Vec<Table>, AllocError>
        ensures { IfOk result (λ tables. (image : Img) (n : ℕ) → KeepsTo image n self.accesses → tables.items ≡ mem_tables image n public.now) }
    {
        self.accesses.finish(public)
    }
}
