//! The lists of the core, with one method for each event.
ghost use Rattle.std.specs.Prelude.{◌≡◌, ◌++◌, length, IfOk, IfNone, IfSome, None, Some, Result};
ghost use Rattle.pipe_core.specs.Pipe.{Holding, first_pipe, pass_at, is_gone, has_work, kept_in};
ghost use Rattle.pipe_core.specs.Events.{IsAnswer};
ghost use Rattle.pipe_core.specs.declared.event.Event.TheVariants.{Push, Pop, Keep, Split, Join};

use crate::{CoreTicket, Event, EventErr, JobId};
use std::alloc::{AllocError, Global};
use std::marker::Model;

/// What one pass holds and keeps.
#[derive(Drop)]
pub struct Pass {
    held: Option<CoreTicket>,
    kept: Vec<JobId>,
}

impl Model for Pass {
    ghost use Rattle.pipe_core.specs.Pipe.{Holding};

    ghost Value = { Holding };

    ghost view = { λ p. record { held = p.held; kept = p.kept.items } };
}

#[derive(Drop)]
pub struct Lists {
    alloc: Global,
    capacity: u32,
    // Every ticket that was pushed. The first `taken` of them were popped.
    tickets: Vec<CoreTicket>,
    taken: usize,
    // By number. A pass that was joined to another is gone.
    passes: Vec<Option<Pass>>,
}

impl Model for Lists {
    ghost use Rattle.std.specs.Prelude.{◌≤◌, length, take, drop};
    ghost use Rattle.pipe_core.specs.Pipe.{Pipe};

    ghost Value = { Pipe };

    ghost view = { λ l. record { capacity = l.capacity; queued = drop l.taken l.tickets.items; pushed = l.tickets.items; popped = take l.taken l.tickets.items; passes = l.passes.items } };

    ghost invariant = { λ l. l.taken ≤ length l.tickets.items };
}

impl Lists {
    pub fn new(alloc: Global, capacity: u32) -> Result<Lists, AllocError>
        ensures { IfOk result (λ l. l ≡ first_pipe capacity) }
    {
        let first = Pass {
            held: None,
            kept: Vec::new(alloc),
        };
        Ok(Lists {
            alloc,
            capacity,
            tickets: Vec::new(alloc),
            taken: 0,
            passes: Vec::from_array(alloc, [Some(first)])?,
        })
    }

    pub fn apply(&mut self, event: &Event) -> Result<(), EventErr>
        ensures { IsAnswer self.old event.now result self.new }
    {
        match *event {
            Event::Push { pass, ticket } => self.push(pass, ticket),
            Event::Pop { pass } => self.pop(pass),
            Event::Keep { pass } => self.keep(pass),
            Event::Split { pass } => self.split(pass),
            Event::Join { into, from } => self.join(into, from),
        }
    }

    /// The jobs that the pass keeps; `None` where it is gone.
    pub fn kept(&self, pass: u32) -> Option<&[JobId]>
        ensures none { IfNone result (pass_at self.now pass ≡ None) }
        ensures some { IfSome result (λ k. (h : Holding) × (pass_at self.now pass ≡ Some h) × (k.now ≡ h.kept)) }
    {
        match self.passes.get(pass as usize) {
            Some(Some(pass)) => Some(pass.kept.as_slice()),
            _ => None,
        }
    }

    fn is_gone(&self, pass: u32) -> bool
        ensures { result ≡ is_gone self.now pass }
    {
        match self.passes.get(pass as usize) {
            Some(Some(_)) => false,
            _ => true,
        }
    }

    fn has_work(&self, pass: u32) -> bool
        ensures { result ≡ has_work self.now pass }
    {
        match self.passes.get(pass as usize) {
            Some(Some(pass)) => match pass.held {
                Some(CoreTicket::Work(_)) => true,
                _ => false,
            },
            _ => false,
        }
    }

    fn push(&mut self, pass: u32, ticket: CoreTicket) -> Result<(), EventErr>
        ensures { IsAnswer self.old (Push pass ticket) result self.new }
    {
        if self.is_gone(pass) {
            return Err(EventErr::NoPass(pass));
        }
        if self.tickets.len() - self.taken >= self.capacity as usize {
            return Err(EventErr::Full);
        }
        self.tickets.push(ticket)?;
        Ok(())
    }

    fn pop(&mut self, pass: u32) -> Result<(), EventErr>
        ensures { IsAnswer self.old (Pop pass) result self.new }
    {
        if self.is_gone(pass) {
            return Err(EventErr::NoPass(pass));
        }
        if self.taken >= self.tickets.len() {
            return Err(EventErr::Empty);
        }
        if self.has_work(pass) {
            return Err(EventErr::Holds(pass));
        }
        let Some(taker) = &mut self.passes[pass as usize] else {
            return Err(EventErr::NoPass(pass));
        };
        taker.held = Some(self.tickets[self.taken]);
        self.taken += 1;
        Ok(())
    }

    fn keep(&mut self, pass: u32) -> Result<(), EventErr>
        ensures { IsAnswer self.old (Keep pass) result self.new }
    {
        if self.is_gone(pass) {
            return Err(EventErr::NoPass(pass));
        }
        let Some(keeper) = &mut self.passes[pass as usize] else {
            return Err(EventErr::NoPass(pass));
        };
        let Some(CoreTicket::Work(job)) = keeper.held else {
            return Err(EventErr::HoldsNone(pass));
        };
        keeper.kept.push(job)?;
        keeper.held = None;
        Ok(())
    }

    fn split(&mut self, pass: u32) -> Result<(), EventErr>
        ensures { IsAnswer self.old (Split pass) result self.new }
    {
        if self.is_gone(pass) {
            return Err(EventErr::NoPass(pass));
        }
        if self.passes.len() >= 1 << 32 {
            return Err(EventErr::LastPass);
        }
        let made = Pass {
            held: None,
            kept: Vec::new(self.alloc),
        };
        self.passes.push(Some(made))?;
        Ok(())
    }

    fn join(&mut self, into: u32, from: u32) -> Result<(), EventErr>
        ensures { IsAnswer self.old (Join into from) result self.new }
    {
        if self.is_gone(into) {
            return Err(EventErr::NoPass(into));
        }
        if into == from || self.is_gone(from) {
            return Err(EventErr::NoPass(from));
        }
        if self.has_work(from) {
            return Err(EventErr::Holds(from));
        }
        let kept = self.kept_by_both(into, from)?;
        let Some(taker) = &mut self.passes[into as usize] else {
            return Err(EventErr::NoPass(into));
        };
        taker.kept = kept;
        self.passes[from as usize] = None;
        Ok(())
    }

    // What the first keeps, and then what the second keeps.
    fn kept_by_both(&self, into: u32, from: u32) -> Result<Vec<JobId>, AllocError>
        ensures { IfOk result (λ v. v.items ≡ kept_in self.now into ++ kept_in self.now from) }
    {
        let mut kept = Vec::new(self.alloc);
        if let Some(jobs) = self.kept(into) {
            kept.extend_from_slice(jobs)?;
        }
        if let Some(jobs) = self.kept(from) {
            kept.extend_from_slice(jobs)?;
        }
        Ok(kept)
    }
}
