//! The core.
ghost use Rattle.std.specs.Prelude.{◌≡◌, ◌≤◌, List, IfOk, IfNone, IfSome, None, Some};
ghost use Rattle.pipe_core.specs.Pipe.{Holding, first_pipe, pass_at};
ghost use Rattle.pipe_core.specs.Events.{IsAnswer, run};
ghost use Rattle.pipe_core.specs.Sound.{IsSound};
ghost use Rattle.pipe_core.specs.declared.event.Event.{Event};

use crate::lists::Lists;
use crate::{Event, EventErr, JobId};
use std::alloc::{AllocError, Global};
use std::marker::Model;

/// The queue and its passes. Contracts see which tickets are queued, which were pushed and which popped, each in order,
/// and what each pass holds and keeps. Whatever happened to it: what was pushed is what was popped and then what is
/// queued, the jobs that were popped are those that passes hold and keep, each as often, and the queue holds at most its
/// capacity.
#[derive(Drop)]
pub struct Core {
    lists: Lists,
}

impl Model for Core {
    ghost use Rattle.pipe_core.specs.Pipe.{Pipe};
    ghost use Rattle.pipe_core.specs.Sound.{IsSound};

    ghost Value = { Pipe };

    ghost view = { λ c. c.lists };

    ghost invariant = { λ c. IsSound c.lists };
}

impl Core {
    /// An empty queue of this capacity, and its pass 0. Every list of events leads from here to a sound state, refused
    /// events included.
    pub fn new(alloc: Global, capacity: u32) -> Result<Core, AllocError>
        requires { 1 ≤ capacity }
        ensures first { IfOk result (λ c. c ≡ first_pipe capacity) }
        ensures sound { (events : List Event) → IsSound (run (first_pipe capacity) events) }
    {
        Ok(Core {
            lists: Lists::new(alloc, capacity)?,
        })
    }

    /// One event. A refused one leaves no trace, and its answer is the first refusal that applies; where none does, memory
    /// ran out.
    pub fn apply(&mut self, event: &Event) -> Result<(), EventErr>
        ensures { IsAnswer self.old event.now result self.new }
    {
        self.lists.apply(event)
    }

    /// The jobs that the pass keeps, in the order in which it kept them; `None` where there is no such pass.
    pub fn kept(&self, pass: u32) -> Option<&[JobId]>
        ensures none { IfNone result (pass_at self.now pass ≡ None) }
        ensures some { IfSome result (λ k. (h : Holding) × (pass_at self.now pass ≡ Some h) × (k.now ≡ h.kept)) }
    {
        self.lists.kept(pass)
    }
}
