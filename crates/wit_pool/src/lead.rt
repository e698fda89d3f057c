//! What the thread does that makes the run.
ghost use Rattle.std.specs.Prelude.{◌≡◌, ◌+◌, ◌^◌, ◌<◌, ◌++◌, [], ℕ, All, IfOk, OnOk};
ghost use Rattle.std.specs.Arc.{arc_value};
ghost use Rattle.rv_model.specs.Run.{RunsTo};
ghost use Rattle.min_trace.specs.Chunk.{IsChunk, first_step};
ghost use Rattle.mem_rows.specs.Rows.{mem_tables};
ghost use Rattle.planner.specs.Jobs.{finished};
ghost use Rattle.run_rows.specs.Runs.{counts_to};
ghost use Rattle.job_queue.specs.Calls.{image_of};
ghost use Rattle.wit_pool.specs.Planned.{AreAllJobs};
ghost use Rattle.wit_pool.specs.Progress.{HasChunks, IsAt, IsBorder, IsReady};
ghost use Rattle.wit_pool.specs.Serving.{IsServing, Serves, shares_of, pushed_of};
ghost use Rattle.wit_pool.specs.Led.{IsRunning, HasLed, handed_to};

use crate::gate::Gate;
use crate::hands::Hands;
use crate::progress::Progress;
use gold::Table;
use job_queue::JobQueue;
use min_trace::{Chunk, STEPS_PER_CHUNK};
use planner::{Job, each_job_once, each_whole_job_once, jobs_handed_out};
use run_rows::jobs_of_a_run;
use rv_emu::{Emu, Step};
use rv_model::{Image, Public, RunEnd};
use std::alloc::{AllocError, Global};
use std::sync::{Arc, Wait};

/// A run that is being made, with what is kept of its chunks so far.
#[derive(Drop)]
pub struct Run {
    emu: Emu,
    progress: Progress,
}

/// How a run ended that halted, and its Mem tables, which are no job.
#[derive(Drop)]
pub struct Whole {
    /// The number of its steps, the halting one with them.
    pub steps: u32,
    pub public: Public,
    pub mem: Vec<Table>,
}

impl Run {
    /// The image's run for at most `limit` steps, of which nothing is made yet.
    pub fn new(alloc: Global, image: Arc<Image>, limit: u32) -> Result<Run, AllocError>
        ensures running { IfOk result (IsRunning (arc_value image) limit) }
        ensures number { IfOk result (λ run. run.emu.number ≡ 0) }
    {
        let progress = Progress::new(alloc, &image)?;
        let emu = Emu::new(alloc, image, limit)?;
        Ok(Run { emu, progress })
    }
}

impl Hands {
    // Pushes jobs of the run so far, with their chunks.
    fn push_jobs<R: Wait>(
        self,
        rt: &R,
        queue: &JobQueue,
        progress: &Progress,
        jobs: Vec<Job>,
    ) -> (Hands, Result<(), AllocError>)
        requires serves { Serves queue.now self }
        requires jobs { (n : ℕ) × HasChunks (image_of queue.now) n progress.now.chunks.items × All (IsReady (image_of queue.now) n) jobs.items }
        ensures serving { IsServing queue.now (shares_of self) (pushed_of result.0) result.0 }
        ensures pushed { OnOk result.1 (pushed_of result.0 ≡ pushed_of self ++ jobs.items) }
    {
        let mut hands = self;
        for job in jobs {
            let Ok(ticket) = progress.ticket(job, queue.image()) else {
                return (hands, Err(AllocError));
            };
            hands = hands.push(rt, queue, ticket);
        }
        (hands, Ok(()))
    }

    // Adds the next chunk to the run, and pushes the jobs that it makes whole.
    fn add_chunk<R: Wait, G: Gate>(
        self,
        rt: &R,
        queue: &JobQueue,
        gate: &G,
        progress: &mut Progress,
        chunk: Chunk,
    ) -> (Hands, Result<(), AllocError>)
        requires chunk { IsChunk (image_of queue.now) chunk }
        requires border { IsBorder (image_of queue.now) (first_step chunk.number + chunk.steps) }
        requires progress { IsAt (image_of queue.now) (first_step chunk.number) progress.old }
        requires serving { IsServing queue.now (shares_of self) (handed_to (image_of queue.now) (first_step chunk.number)) self }
        ensures progress { OnOk result.1 (IsAt (image_of queue.now) (first_step chunk.number + chunk.steps) progress.new) }
        ensures serving { IsServing queue.now (shares_of self) (pushed_of result.0) result.0 }
        ensures pushed { OnOk result.1 (pushed_of result.0 ≡ handed_to (image_of queue.now) (first_step chunk.number + chunk.steps)) }
    {
        jobs_of_a_run();
        let number = chunk.number;
        let Ok(jobs) = progress.add(queue.image(), chunk) else {
            return (self, Err(AllocError));
        };
        gate.published(number);
        self.push_jobs(rt, queue, progress, jobs)
    }

    // Pushes the jobs that are left at the end of the run, and makes its Mem tables.
    fn push_last<R: Wait>(
        self,
        rt: &R,
        queue: &JobQueue,
        progress: Progress,
        steps: u32,
        public: Public,
    ) -> (Hands, Result<Whole, AllocError>)
        requires halts { RunsTo (image_of queue.now) steps public }
        requires progress { IsAt (image_of queue.now) steps progress }
        requires serving { IsServing queue.now (shares_of self) (handed_to (image_of queue.now) steps) self }
        ensures serving { IsServing queue.now (shares_of self) (pushed_of result.0) result.0 }
        ensures pushed { OnOk result.1 (pushed_of result.0 ≡ handed_to (image_of queue.now) steps ++ finished (counts_to (image_of queue.now) steps)) }
        ensures run { IfOk result.1 (λ w. (w.steps ≡ steps) × (w.public ≡ public)) }
        ensures mem { IfOk result.1 (λ w. w.mem.items ≡ mem_tables (image_of queue.now) steps public) }
    {
        jobs_of_a_run();
        jobs_handed_out();
        let mut progress = progress;
        let Ok(jobs) = progress.last_jobs() else {
            return (self, Err(AllocError));
        };
        let (hands, pushed) = self.push_jobs(rt, queue, &progress, jobs);
        if pushed.is_err() {
            return (hands, Err(AllocError));
        }
        let Ok(mem) = progress.mem_tables(&public) else {
            return (hands, Err(AllocError));
        };
        (hands, Ok(Whole { steps, public, mem }))
    }

    // Adds the last chunk, after which the run halts and publishes this, and ends the run.
    fn end<R: Wait, G: Gate>(
        self,
        rt: &R,
        queue: &JobQueue,
        gate: &G,
        progress: Progress,
        last: (Chunk, Public),
    ) -> (Hands, Result<Whole, AllocError>)
        requires chunk { IsChunk (image_of queue.now) last.0 }
        requires halts { RunsTo (image_of queue.now) (first_step last.0.number + last.0.steps) last.1 }
        requires most { first_step last.0.number + last.0.steps < 2 ^ 32 }
        requires progress { IsAt (image_of queue.now) (first_step last.0.number) progress }
        requires serving { IsServing queue.now (shares_of self) (handed_to (image_of queue.now) (first_step last.0.number)) self }
        ensures serving { IsServing queue.now (shares_of self) (pushed_of result.0) result.0 }
        ensures pushed { OnOk result.1 (AreAllJobs (image_of queue.now) (first_step last.0.number + last.0.steps) (pushed_of result.0)) }
        ensures run { IfOk result.1 (λ w. (w.steps ≡ first_step last.0.number + last.0.steps) × (w.public ≡ last.1)) }
        ensures mem { IfOk result.1 (λ w. w.mem.items ≡ mem_tables (image_of queue.now) (first_step last.0.number + last.0.steps) last.1) }
    {
        each_job_once();
        let (chunk, public) = last;
        let steps = STEPS_PER_CHUNK * chunk.number + chunk.steps;
        let mut progress = progress;
        let (hands, added) = self.add_chunk(rt, queue, gate, &mut progress, chunk);
        if added.is_err() {
            return (hands, Err(AllocError));
        }
        hands.push_last(rt, queue, progress, steps, public)
    }

    // Makes the run chunk by chunk, and pushes its jobs as soon as they are known.
    fn emulate<R: Wait, G: Gate>(
        self,
        rt: &R,
        queue: &JobQueue,
        gate: &G,
        run: Run,
    ) -> (Hands, Result<Whole, RunEnd>)
        requires running { IsRunning (image_of queue.now) run.emu.limit run }
        requires serving { IsServing queue.now (shares_of self) (handed_to (image_of queue.now) (first_step run.emu.number)) self }
        ensures { HasLed queue.now run.emu.limit (shares_of self) result.1 result.0 }
    {
        each_whole_job_once();
        let Run { emu, progress } = run;
        let mut emu = emu;
        let mut progress = progress;
        let mut hands = self;
        loop {
            match emu.next_chunk() {
                Ok(Step::Chunk(chunk)) => {
                    let (next, added) = hands.add_chunk(rt, queue, gate, &mut progress, chunk);
                    hands = next;
                    if added.is_err() {
                        return (hands, Err(RunEnd::NoMemory));
                    }
                }
                Ok(Step::Last(chunk, public)) => {
                    let (hands, end) = hands.end(rt, queue, gate, progress, (chunk, public));
                    let Ok(whole) = end else {
                        return (hands, Err(RunEnd::NoMemory));
                    };
                    return (hands, Ok(whole));
                }
                Err(end) => return (hands, Err(end)),
            }
        }
    }

    /// Makes the run and pushes its jobs, empties the queue, and stops the workers.
    pub fn lead<R: Wait, G: Gate>(
        self,
        rt: &R,
        queue: &JobQueue,
        gate: &G,
        run: Run,
        started: u32,
    ) -> (Hands, Result<Whole, RunEnd>)
        requires running { IsRunning (image_of queue.now) run.emu.limit run }
        requires serving { IsServing queue.now (shares_of self) (handed_to (image_of queue.now) (first_step run.emu.number)) self }
        ensures { HasLed queue.now run.emu.limit (shares_of self) result.1 result.0 }
    {
        let (hands, end) = self.emulate(rt, queue, gate, run);
        let hands = hands.empty(rt, queue);
        (hands.push_stops(rt, queue, started), end)
    }
}
