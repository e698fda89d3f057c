//! The whole call.
ghost use Rattle.std.specs.Prelude.{◌≡◌, ◌<◌, ◌≤◌, ℕ, false, IfOk, OnOk};
ghost use Rattle.std.specs.Arc.{arc_value};
ghost use Rattle.crossbeam_queue.specs.Passes.{view};
ghost use Rattle.rv_model.specs.Image.{Img};
ghost use Rattle.mem_rows.specs.Rows.{mem_tables};
ghost use Rattle.run_tables.specs.Sequential.{Makes, sequential_witness};
ghost use Rattle.job_queue.specs.Calls.{IsOf, HasAll, image_of, shares_of};
ghost use Rattle.job_queue.specs.Rule.{whole, HaveSameTickets};
ghost use Rattle.wit_pool.specs.Jobs.{jobs_of};
ghost use Rattle.wit_pool.specs.Placed.{AreMade};
ghost use Rattle.wit_pool.specs.Pool.{Pushes};

use crate::crew::{Crew, split_all, with_workers};
use crate::gate::Gate;
use crate::hands::Hands;
use crate::lead::{Run, Whole};
use crate::placing::place;
use gold::{Profile, Witness};
use job_queue::{JobQueue, Pass};
use run_tables::Made;
use rv_model::{Image, RunEnd};
use std::alloc::{AllocError, Global};
use std::sync::{Arc, Wait};
use std::thread::Threads;

impl Hands {
    // What is made of a run that halted. An error where memory ran out, for a table or for a list.
    fn made(self, run: Whole) -> (Pass, Result<Made, AllocError>)
        ensures pass { result.0 ≡ self.pass }
        ensures long { OnOk result.1 (self.short ≡ false) }
        ensures run { IfOk result.1 (λ made. (made.steps ≡ run.steps) × (made.public ≡ run.public)) }
        ensures witness { IfOk result.1 (λ made. (image : Img) → AreMade image run.steps self.done.items → run.mem.items ≡ mem_tables image run.steps run.public → made.witness ≡ sequential_witness image run.steps run.public) }
    {
        let Hands { pass, done, short } = self;
        if short {
            return (pass, Err(AllocError));
        }
        let Whole { steps, public, mem } = run;
        let alloc = *done.allocator();
        let Ok(tables) = place(alloc, done, mem, &public) else {
            return (pass, Err(AllocError));
        };
        let witness = Witness {
            profile: Profile::Small,
            tables,
        };
        let made = Made {
            witness,
            steps,
            public,
        };
        (pass, Ok(made))
    }
}

/// The run of the image within `limit` steps, made by this thread, and its tables, made by this thread and by workers: the
/// sequential ones. The pass comes back with all shares of the queue, and all that it pushed was taken: with tables these are
/// the jobs of the run's plan, each once, and with another end the whole jobs of the chunks before it, each once.
///
/// # Errors
///
/// How the run ends that doesn't halt within the limit, or that memory ran out.
pub fn expand_all<R: Threads + Wait + Sync, G: Gate + Sync>(
    rt: &R,
    alloc: Global,
    queue: &JobQueue,
    pass: Pass,
    image: Arc<Image>,
    limit: u32,
    workers: u32,
    gate: &G,
) -> (Pass, Result<Made, RunEnd>)
    requires pass { IsOf queue.now pass × (view pass ≡ whole (image_of queue.now) (shares_of queue.now)) }
    requires image { arc_value image ≡ image_of queue.now }
    requires limit { 1 ≤ limit }
    requires workers { (1 ≤ workers) × (workers ≤ 64) × (workers < shares_of queue.now) }
    ensures pass { IsOf queue.now result.0 × HasAll queue.now result.0 }
    ensures tickets { HaveSameTickets (view result.0).pushed (view result.0).taken }
    ensures answer { Makes (arc_value image) limit result.1 }
    ensures jobs { Pushes (arc_value image) limit result.1 (jobs_of (view result.0).pushed) }
{
    let mine = Hands {
        pass,
        done: Vec::new(alloc),
        short: false,
    };
    let Ok(run) = Run::new(alloc, image, limit) else {
        return (mine.pass, Err(RunEnd::NoMemory));
    };
    let (mine, waiting) = split_all(alloc, queue, workers, mine);
    let Ok(waiting) = waiting else {
        return (mine.pass, Err(RunEnd::NoMemory));
    };
    let crew = Crew {
        mine,
        waiting,
        started: 0,
    };
    let (hands, end) = with_workers(rt, queue, gate, run, crew);
    let hands = hands.empty(rt, queue);
    match end {
        Ok(run) => {
            let (pass, made) = hands.made(run);
            let Ok(made) = made else {
                return (pass, Err(RunEnd::NoMemory));
            };
            (pass, Ok(made))
        }
        Err(end) => (hands.pass, Err(end)),
    }
}
