//! The steps of the queue that other threads may come between. Each keeps the rule.
ghost use Rattle.std.specs.Prelude.{◌≡◌, ◌<◌, ◌≤◌, MatchOption, MatchResult};
ghost use Rattle.crossbeam_queue.specs.Fifo.{Held};
ghost use Rattle.crossbeam_queue.specs.Passes.{view, IsPassOf, ruled_capacity};
ghost use Rattle.job_queue.specs.Truth.{IsTrueOf};
ghost use Rattle.job_queue.specs.Rule.{blank, whole, with_pushed, with_taken, IsSeen};

use crate::Ticket;
use crate::rule::{Begin, Pass, Purpose, Pushes, Takes, Truth, View};
use crossbeam_queue::RuledArrayQueue;
use rv_model::Image;
use std::sync::Wait;

pub type Line = RuledArrayQueue<Ticket, View, Truth>;

/// Names the image and the shares.
pub fn begin<U: Purpose>(line: &Line, pass: &mut Pass, image: &Image, shares: u32)
    requires queue { IsPassOf line.now pass.old }
    requires blank { view pass.old ≡ blank }
    requires purpose { (U.image ≡ image.now) × (U.shares ≡ shares) × (1 ≤ shares) }
    ensures queue { IsPassOf line.now pass.new }
    ensures view { view pass.new ≡ whole image.now shares }
{
    let _spent = line.another::<Begin<U>>(pass);
}

/// The ticket goes to the back, or comes back from a full queue.
pub fn push<R: Wait>(line: &Line, rt: &R, pass: &mut Pass, ticket: Ticket) -> Result<(), Ticket>
    requires queue { IsPassOf line.now pass.old × (0 < (view pass.old).shares) }
    requires ticket { IsTrueOf (view pass.old).image ticket }
    ensures queue { IsPassOf line.now pass.new }
    ensures rule { MatchResult result (λ _. view pass.new ≡ with_pushed (view pass.old) ticket) (λ back. (back ≡ ticket) × (view pass.new ≡ view pass.old) × Held (ruled_capacity line.now) (IsSeen (view pass.old))) }
{
    line.push_as::<Pushes, R>(rt, pass, ticket)
}

/// The ticket at the front, if the queue isn't empty.
pub fn pop<R: Wait>(line: &Line, rt: &R, pass: &mut Pass) -> Option<Ticket>
    requires queue { IsPassOf line.now pass.old × (0 < (view pass.old).shares) }
    ensures queue { IsPassOf line.now pass.new }
    ensures rule { MatchOption result ((view pass.new ≡ view pass.old) × Held 0 (IsSeen (view pass.old))) (λ t. (view pass.new ≡ with_taken (view pass.old) t) × IsTrueOf (view pass.old).image t) }
{
    line.pop_as::<Takes, R>(rt, pass)
}
