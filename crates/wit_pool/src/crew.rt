//! The threads.
ghost use Rattle.std.specs.Prelude.{◌≡◌, ◌+◌, ◌-◌, ◌<◌, ◌≤◌, [], All, vec_len, IfOk, OnOk, OnErr};
ghost use Rattle.std.specs.Thread.{IsSync};
ghost use Rattle.wit_pool.specs.Crew.{IsWorker, IsCrew, crew_shares};
ghost use Rattle.wit_pool.specs.Led.{HasLed};
ghost use Rattle.wit_pool.specs.Serving.{IsServing, Serves, shares_of, pushed_of};

use crate::gate::Gate;
use crate::hands::Hands;
use crate::lead::{Run, Whole};
use job_queue::JobQueue;
use rv_model::RunEnd;
use std::alloc::{AllocError, Global};
use std::sync::Wait;
use std::sync::atomic::{AtomicBool, Ordering};
use std::thread;
use std::thread::{Promise, Threads};

/// The caller's hands, those of the workers that aren't started yet, and how many are.
#[derive(Drop)]
pub struct Crew {
    pub mine: Hands,
    pub waiting: Vec<Hands>,
    pub started: u32,
}

impl Crew {
    // With one more that was started.
    fn one_more(self) -> Crew
        requires { self.started < 64 }
        ensures { result ≡ record self { started = self.started + 1 } }
    {
        let Crew {
            mine,
            waiting,
            started,
        } = self;
        Crew {
            mine,
            waiting,
            started: started + 1,
        }
    }
}

/// That a worker gives back a pass of this queue that pushed nothing, with the tables of what it took.
#[derive(Clone, Copy)]
struct GivesBack<'a> {
    queue: &'a JobQueue,
}

impl<'a> Promise<Hands> for GivesBack<'a> {
    ghost use Rattle.wit_pool.specs.Crew.{IsWorker};

    ghost kept_by = { λ p r. IsWorker p.queue.now r };
}

impl Hands {
    // What a worker runs. It gives its pass back untouched where the flag is set.
    fn run<R: Wait, G: Gate>(
        self,
        rt: &R,
        queue: &JobQueue,
        gate: &G,
        refused: &AtomicBool,
    ) -> Hands
        requires { IsWorker queue.now self }
        ensures { IsWorker queue.now result }
    {
        if refused.load(Ordering::SeqCst) {
            return self;
        }
        self.work(rt, queue, gate)
    }

    // One share goes to a worker.
    fn split_off(self, alloc: Global, queue: &JobQueue) -> (Hands, Hands)
        requires serves { Serves queue.now self }
        requires shares { 2 ≤ shares_of self }
        ensures mine { IsServing queue.now (shares_of self - 1) (pushed_of self) result.0 }
        ensures theirs { IsWorker queue.now result.1 }
    {
        let Hands { pass, done, short } = self;
        let Ok((pass, second)) = queue.split(pass) else {
            unreachable!();
        };
        let worker = Hands {
            pass: second,
            done: Vec::new(alloc),
            short: false,
        };
        (Hands { pass, done, short }, worker)
    }

    // What both did.
    fn take_in(self, queue: &JobQueue, other: Hands) -> Hands
        requires serves { Serves queue.now self }
        requires other { IsWorker queue.now other }
        ensures { IsServing queue.now (shares_of self + 1) (pushed_of self) result }
    {
        let Hands {
            pass,
            mut done,
            short,
        } = self;
        let Hands {
            pass: from,
            done: mut more,
            short: too,
        } = other;
        let pass = queue.join(pass, from);
        let lacks = done.append(&mut more).is_err();
        Hands {
            pass,
            done,
            short: short | too | lacks,
        }
    }
}

/// One share for each worker. Where memory ran out none is split off.
pub fn split_all(
    alloc: Global,
    queue: &JobQueue,
    workers: u32,
    mine: Hands,
) -> (Hands, Result<Vec<Hands>, AllocError>)
    requires serves { Serves queue.now mine }
    requires shares { workers < shares_of mine }
    ensures mine { OnOk result.1 (IsServing queue.now (shares_of mine - workers) (pushed_of mine) result.0) }
    ensures workers { IfOk result.1 (λ all. All (IsWorker queue.now) all.items × (vec_len all ≡ workers)) }
    ensures none { OnErr result.1 (result.0 ≡ mine) }
{
    let Ok(mut all) = Vec::with_capacity(alloc, workers as usize) else {
        return (mine, Err(AllocError));
    };
    let mut mine = mine;
    for _ in 0..workers {
        let (next, theirs) = mine.split_off(alloc, queue);
        mine = next;
        all.push_reserved(theirs);
    }
    (mine, Ok(all))
}

// Starts a worker in a scope of its own, and the others beside it. Where it can't be started, the caller does its work.
#[cycle(starting)]
fn start_one<R: Threads + Wait + Sync, G: Gate + Sync>(
    rt: &R,
    queue: &JobQueue,
    gate: &G,
    run: Run,
    crew: Crew,
    theirs: Hands,
) -> (Hands, Result<Whole, RunEnd>)
    requires crew { IsCrew queue.now run crew }
    requires theirs { IsWorker queue.now theirs }
    requires few { vec_len crew.waiting + crew.started < 64 }
    ensures { HasLed queue.now run.emu.limit (crew_shares crew + 1) result.1 result.0 }
{
    let refused = AtomicBool::new(false);
    let flag = &refused;
    thread::scope(
        thread::scope_env(),
        rt,
        |scope| -> (Hands, Result<Whole, RunEnd>)
            requires { IsSync R.row × IsSync G.row × IsCrew queue.now run crew × IsWorker queue.now theirs × (vec_len crew.waiting + crew.started < 64) }
            ensures { HasLed queue.entry.now run.emu.limit (crew_shares crew + 1) result.1 result.0 }
        {
            let promise = GivesBack { queue };
            match scope.spawn_with(
                promise,
                move || -> Hands
                    requires { IsWorker queue.now theirs }
                    ensures { IsWorker queue.entry.now result }
                { theirs.run(rt, queue, gate, flag) },
            ) {
                Ok(worker) => {
                    let (mine, end) = with_workers(rt, queue, gate, run, crew.one_more());
                    let theirs = worker.join(rt);
                    (mine.take_in(queue, theirs), end)
                }
                Err(back) => {
                    flag.store(true, Ordering::SeqCst);
                    let theirs = (back.value)();
                    let (mine, end) = with_workers(rt, queue, gate, run, crew);
                    (mine.take_in(queue, theirs), end)
                }
            }
        },
    )
}

/// Starts the workers that wait, and leads them.
#[cycle(starting)]
pub fn with_workers<R: Threads + Wait + Sync, G: Gate + Sync>(
    rt: &R,
    queue: &JobQueue,
    gate: &G,
    run: Run,
    crew: Crew,
) -> (Hands, Result<Whole, RunEnd>)
    requires { IsCrew queue.now run crew }
    ensures { HasLed queue.now run.emu.limit (crew_shares crew) result.1 result.0 }
{
    let Crew {
        mine,
        mut waiting,
        started,
    } = crew;
    match waiting.pop() {
        Some(theirs) => {
            let rest = Crew {
                mine,
                waiting,
                started,
            };
            start_one(rt, queue, gate, run, rest, theirs)
        }
        None => mine.lead(rt, queue, gate, run, started),
    }
}
