//! The tables of a run, made with workers.
ghost use Rattle.std.specs.Prelude.{◌≡◌, ◌≤◌, ◌<◌, IfOk, IsErrOf};
ghost use Rattle.std.specs.Arc.{arc_value};
ghost use Rattle.gold.specs.Shapes.{HaveShape};
ghost use Rattle.gold.specs.declared.shapes.Form.TheVariants.{Two};
ghost use Rattle.zk_layout.specs.Air.{machine_shape_of};
ghost use Rattle.run_tables.specs.Sequential.{Makes};
ghost use Rattle.zk_words.specs.declared.command.TheConstants.{MOST_WORKERS};
ghost use Rattle.zk_top.specs.Parts.{IsMaking};

use crate::witnessing::can_run;
use job_queue::JobQueue;
use run_accepted::completeness;
use run_tables::Made;
use rv_model::{Image, RunEnd, run_law};
use std::alloc::Global;
use std::sync::{Arc, Wait};
use std::thread::Threads;
use wit_pool::{Gate, expand_all};
use zk_words::Status;

/// The queue of the workers holds so many jobs at most.
const QUEUE_CAPACITY: u32 = 64;

// The image's run for at most so many steps, made over a queue that this thread shares with the workers.
fn run_with_workers<R: Threads + Wait + Sync, G: Gate + Sync>(
    rt: &R,
    alloc: Global,
    gate: &G,
    image: Arc<Image>,
    steps: u32,
    workers: u32,
) -> Result<Made, RunEnd>
    requires steps { 0 < steps }
    requires workers { (1 ≤ workers) × (workers ≤ MOST_WORKERS) }
    ensures { Makes (arc_value image) steps result }
{
    let Ok(shared) = Arc::clone(&image) else {
        return Err(RunEnd::NoMemory);
    };
    let Ok((queue, pass)) = JobQueue::new(alloc, QUEUE_CAPACITY, workers + 1, shared) else {
        return Err(RunEnd::NoMemory);
    };
    let (_pass, answer) = expand_all(rt, alloc, &queue, pass, image, steps, workers, gate);
    answer
}

/// The tables of the image's run, made by this thread and by workers, or how it ends without.
pub(crate) fn tables_by_workers<R: Threads + Wait + Sync, G: Gate + Sync>(
    rt: &R,
    alloc: Global,
    gate: &G,
    image: Image,
    steps: u32,
    workers: u32,
) -> Result<Made, Status>
    requires steps { 0 < steps }
    requires workers { (1 ≤ workers) × (workers ≤ MOST_WORKERS) }
    ensures made { IsMaking image steps result }
    ensures shaped { IfOk result (λ made. HaveShape (machine_shape_of Two) made.witness) }
    ensures no_bad_words { IsErrOf result Status.BadWords → ⊥ }
{
    run_law();
    completeness();
    can_run(&image);
    let Ok(image) = Arc::new(alloc, image) else {
        return Err(Status::NoMemory);
    };
    match run_with_workers(rt, alloc, gate, image, steps, workers) {
        Ok(made) => Ok(made),
        Err(RunEnd::Fault(fault)) => Err(Status::RunFault(fault)),
        Err(RunEnd::StepLimit(limit)) => Err(Status::StepLimit(limit)),
        Err(RunEnd::NoMemory) => Err(Status::NoMemory),
    }
}
