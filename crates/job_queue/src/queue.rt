//! The queue and its calls.
ghost use Rattle.std.specs.Prelude.{◌≡◌, ◌+◌, ◌≤◌, length, IfOk, IfErr, OnOk, OnErr, IfSome, IfNone, IsOk};
ghost use Rattle.std.specs.Arc.{arc_value};
ghost use Rattle.crossbeam_queue.specs.Fifo.{Held};
ghost use Rattle.crossbeam_queue.specs.Passes.{view, IsPassOf};
ghost use Rattle.job_queue.specs.Truth.{IsTrueOf};
ghost use Rattle.job_queue.specs.Rule.{blank, whole, less_one, one_of, joined, with_pushed, with_taken, IsSeen, HaveSameTickets};
ghost use Rattle.job_queue.specs.Calls.{IsOf, HasAll, image_of, shares_of, capacity_of};

use crate::Ticket;
use crate::rule::{Pass, Share};
use crate::steps::{Line, begin, pop, push};
use rv_model::Image;
use std::alloc::{AllocError, Global};
use std::marker::Brand;
use std::sync::{Arc, Wait};

/// A bounded queue, first in, first out, for the jobs of one image's run.
#[derive(Drop)]
pub struct JobQueue {
    line: Line,
    shares: u32,
    image: Arc<Image, Global>,
}

/// The ticket for which there was no room.
#[derive(Drop)]
pub struct Full(pub Ticket);

/// The pass that wasn't split.
#[derive(Drop)]
pub struct PassBack(pub Pass);

impl JobQueue {
    /// An empty queue for the jobs of this image, and its one pass, which has all shares.
    pub fn new(
        alloc: Global,
        capacity: u32,
        shares: u32,
        image: Arc<Image, Global>,
    ) -> Result<(JobQueue, Pass), AllocError>
        requires capacity { 1 ≤ capacity }
        requires shares { 1 ≤ shares }
        ensures queue { IfOk result (λ r. (capacity_of r.0 ≡ capacity) × (shares_of r.0 ≡ shares) × (image_of r.0 ≡ arc_value image)) }
        ensures pass { IfOk result (λ r. IsOf r.0 r.1 × (view r.1 ≡ whole (arc_value image) shares)) }
    {
        let (line, mut pass) = Line::ruled(alloc, capacity as usize)?;
        begin::<Brand>(&line, &mut pass, &image, shares);
        Ok((
            JobQueue {
                line,
                shares,
                image,
            },
            pass,
        ))
    }

    /// The image whose jobs it holds.
    pub fn image(&self) -> &Image
        ensures { result.now ≡ image_of self.now }
    {
        &self.image
    }

    /// Puts the ticket at the back. It comes back in `Full` only where the queue held its capacity at a moment of the call;
    /// where the pass has all shares, exactly then.
    pub fn push_as<R: Wait>(&self, rt: &R, pass: Pass, ticket: Ticket) -> (Pass, Result<(), Full>)
        requires queue { IsOf self.now pass }
        requires ticket { IsTrueOf (image_of self.now) ticket }
        ensures queue { IsOf self.now result.0 }
        ensures done { OnOk result.1 (view result.0 ≡ with_pushed (view pass) ticket) }
        ensures full { IfErr result.1 (λ full. (full.0 ≡ ticket) × (view result.0 ≡ view pass)) }
        ensures was_full { OnErr result.1 (Held (capacity_of self.now) (IsSeen (view pass))) }
        ensures full_for_all { OnErr result.1 (HasAll self.now pass → length (view pass).pushed ≡ length (view pass).taken + capacity_of self.now) }
    {
        let mut pass = pass;
        match push(&self.line, rt, &mut pass, ticket) {
            Ok(()) => (pass, Ok(())),
            Err(back) => (pass, Err(Full(back))),
        }
    }

    /// Takes the ticket at the front. `None` only where the queue was empty at a moment of the call; where the pass has all
    /// shares, exactly then.
    pub fn pop_as<R: Wait>(&self, rt: &R, pass: Pass) -> (Pass, Option<Ticket>)
        requires queue { IsOf self.now pass }
        ensures queue { IsOf self.now result.0 }
        ensures done { IfSome result.1 (λ t. view result.0 ≡ with_taken (view pass) t) }
        ensures truth { IfSome result.1 (λ t. IsTrueOf (image_of self.now) t) }
        ensures none { IfNone result.1 (view result.0 ≡ view pass) }
        ensures was_empty { IfNone result.1 (Held 0 (IsSeen (view pass))) }
        ensures empty_for_all { IfNone result.1 (HasAll self.now pass → HaveSameTickets (view pass).pushed (view pass).taken) }
    {
        let mut pass = pass;
        let taken = pop(&self.line, rt, &mut pass);
        (pass, taken)
    }

    /// A pass of its own for one of the shares. It is never refused.
    pub fn split(&self, pass: Pass) -> Result<(Pass, Pass), PassBack>
        requires queue { IsOf self.now pass }
        requires shares { 2 ≤ (view pass).shares }
        ensures done { IsOk result }
        ensures queue { IfOk result (λ r. IsOf self.now r.0 × IsOf self.now r.1) }
        ensures views { IfOk result (λ r. (view r.0 ≡ less_one (view pass)) × (view r.1 ≡ one_of (view pass))) }
    {
        let mut pass = pass;
        let second = self.line.another::<Share>(&mut pass);
        Ok((pass, second))
    }

    /// One pass with the shares of both: what `from` pushed and took follows what `into` did.
    pub fn join(&self, into: Pass, from: Pass) -> Pass
        requires queue { IsOf self.now into × IsOf self.now from }
        ensures queue { IsOf self.now result }
        ensures view { view result ≡ joined (view into) (view from) }
    {
        let mut into = into;
        self.line.absorb::<Share>(&mut into, from);
        into
    }
}
