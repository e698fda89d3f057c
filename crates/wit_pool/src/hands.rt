//! What one thread does with the queue.
ghost use Rattle.std.specs.Prelude.{◌≡◌, ◌++◌, ◌∷◌, [], ℕ, List, false, MatchResult, OnOk};
ghost use Rattle.crossbeam_queue.specs.Passes.{view};
ghost use Rattle.run_rows.specs.Runs.{values_of, Halts};
ghost use Rattle.run_tables.specs.Sequential.{table_for};
ghost use Rattle.job_queue.specs.declared.ticket.Ticket.{Ticket as AnyTicket};
ghost use Rattle.job_queue.specs.Calls.{image_of, HasAll};
ghost use Rattle.job_queue.specs.Rule.{HaveSameTickets};
ghost use Rattle.job_queue.specs.Truth.{IsTrueJob, IsTrueOf};
ghost use Rattle.wit_pool.specs.Jobs.{jobs_of};
ghost use Rattle.wit_pool.specs.Serving.{AreTables, IsServing, Serves, shares_of, pushed_of};

use crate::gate::{Gate, NoGate};
use gold::Table;
use job_queue::{Full, JobQueue, Pass, Ticket};
use min_trace::Chunk;
use planner::Job;
use run_tables::expand;
use rv_model::Image;
use std::alloc::AllocError;
use std::sync::{Arc, Wait};
use std::thread;

/// A thread's pass, with the tables of the jobs that it took. It is short where memory ran out for one of them.
#[derive(Drop)]
pub struct Hands {
    pub pass: Pass,
    pub done: Vec<Table>,
    pub short: bool,
}

// Puts the job's table behind those that were made.
fn make(
    done: &mut Vec<Table>,
    image: &Image,
    job: &Job,
    chunks: &[Arc<Chunk>],
) -> Result<(), AllocError>
    requires { IsTrueJob image.now job.now (values_of chunks.now) }
    ensures { OnOk result ((n : ℕ) → Halts image.now n → done.new.items ≡ done.old.items ++ table_for image.now n job.now ∷ []) }
{
    let alloc = *done.allocator();
    let table = expand(alloc, image, job, chunks)?;
    done.push(table)?;
    Ok(())
}

impl Hands {
    // Does the work of a ticket that the pass took last.
    fn serve<G: Gate>(self, queue: &JobQueue, gate: &G, ticket: &Ticket) -> Hands
        requires { IsTrueOf (image_of queue.now) ticket.now }
        ensures pass { result.pass ≡ self.pass }
        ensures made { (ts : List AnyTicket) → (self.short ≡ false → AreTables (image_of queue.now) ts self.done.items) → result.short ≡ false → AreTables (image_of queue.now) (ts ++ ticket.now ∷ []) result.done.items }
    {
        let Hands {
            pass,
            mut done,
            short,
        } = self;
        match ticket {
            Ticket::Work(job, chunks) => {
                gate.enter(job.air, job.instance);
                let lacks = make(&mut done, queue.image(), job, chunks.as_slice()).is_err();
                Hands {
                    pass,
                    done,
                    short: short | lacks,
                }
            }
            Ticket::Stop => Hands { pass, done, short },
        }
    }

    // Takes one ticket and does its work. False where there was none.
    fn help<R: Wait, G: Gate>(self, rt: &R, queue: &JobQueue, gate: &G) -> (Hands, bool)
        requires { Serves queue.now self }
        ensures serving { IsServing queue.now (shares_of self) (pushed_of self) result.0 }
        ensures all { HasAll queue.now self.pass → result.1 ≡ false → HaveSameTickets (view result.0.pass).pushed (view result.0.pass).taken }
    {
        let Hands { pass, done, short } = self;
        let (pass, ticket) = queue.pop_as(rt, pass);
        match ticket {
            Some(ticket) => (
                Hands { pass, done, short }.serve(queue, gate, &ticket),
                true,
            ),
            None => (Hands { pass, done, short }, false),
        }
    }

    /// Takes tickets and does their work until it takes a stop.
    pub fn work<R: Wait, G: Gate>(self, rt: &R, queue: &JobQueue, gate: &G) -> Hands
        requires { Serves queue.now self }
        ensures { IsServing queue.now (shares_of self) (pushed_of self) result }
    {
        let mut hands = self;
        for _ in rt.forever() {
            let Hands { pass, done, short } = hands;
            let (pass, ticket) = queue.pop_as(rt, pass);
            hands = Hands { pass, done, short };
            match ticket {
                Some(Ticket::Stop) => return hands.serve(queue, gate, &Ticket::Stop),
                Some(ticket) => hands = hands.serve(queue, gate, &ticket),
                None => thread::yield_now(),
            }
        }
        unreachable!()
    }

    /// Takes what the queue has until it is empty, and does that work.
    pub fn empty<R: Wait>(self, rt: &R, queue: &JobQueue) -> Hands
        requires { Serves queue.now self }
        ensures serving { IsServing queue.now (shares_of self) (pushed_of self) result }
        ensures all { HasAll queue.now self.pass → HaveSameTickets (view result.pass).pushed (view result.pass).taken }
    {
        let mut hands = self;
        for _ in rt.forever() {
            let (next, some) = hands.help(rt, queue, &NoGate);
            hands = next;
            if !some {
                return hands;
            }
        }
        unreachable!()
    }

    // One try to push.
    fn put<R: Wait>(self, rt: &R, queue: &JobQueue, ticket: Ticket) -> (Hands, Result<(), Full>)
        requires serves { Serves queue.now self }
        requires ticket { IsTrueOf (image_of queue.now) ticket }
        ensures { MatchResult result.1 (λ _. IsServing queue.now (shares_of self) (pushed_of self ++ jobs_of (ticket ∷ [])) result.0) (λ full. (full.0 ≡ ticket) × IsServing queue.now (shares_of self) (pushed_of self) result.0) }
    {
        let Hands { pass, done, short } = self;
        let (pass, answer) = queue.push_as(rt, pass, ticket);
        (Hands { pass, done, short }, answer)
    }

    /// Pushes a ticket. While the queue is full it takes one ticket and does its work.
    pub fn push<R: Wait>(self, rt: &R, queue: &JobQueue, ticket: Ticket) -> Hands
        requires serves { Serves queue.now self }
        requires ticket { IsTrueOf (image_of queue.now) ticket }
        ensures { IsServing queue.now (shares_of self) (pushed_of self ++ jobs_of (ticket ∷ [])) result }
    {
        let mut hands = self;
        let mut ticket = ticket;
        for _ in rt.forever() {
            let (next, answer) = hands.put(rt, queue, ticket);
            match answer {
                Ok(()) => return next,
                Err(Full(back)) => {
                    let (next, _some) = next.help(rt, queue, &NoGate);
                    hands = next;
                    ticket = back;
                }
            }
        }
        unreachable!()
    }

    // Pushes one stop. While the queue is full it tries again.
    #[tactic(auto, unfolding(job_queue::specs::Truth::IsTrueOf))]
    fn push_stop<R: Wait>(self, rt: &R, queue: &JobQueue) -> Hands
        requires serves { Serves queue.now self }
        ensures { IsServing queue.now (shares_of self) (pushed_of self) result }
    {
        let mut hands = self;
        for _ in rt.forever() {
            let (next, answer) = hands.put(rt, queue, Ticket::Stop);
            match answer {
                Ok(()) => return next,
                Err(_) => hands = next,
            }
            thread::yield_now();
        }
        unreachable!()
    }

    /// Pushes so many stops.
    pub fn push_stops<R: Wait>(self, rt: &R, queue: &JobQueue, count: u32) -> Hands
        requires { Serves queue.now self }
        ensures { IsServing queue.now (shares_of self) (pushed_of self) result }
    {
        let mut hands = self;
        for _ in 0..count {
            hands = hands.push_stop(rt, queue);
        }
        hands
    }
}
