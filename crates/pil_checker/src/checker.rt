//! A checker that is given the instances of the tables one at a time.
ghost use Rattle.std.specs.Prelude.{◌≡◌, ◌+◌, ◌<◌, ◌≤◌, ◌^◌, ℕ, length, slice_index, slice_set, IfOk, OnOk, MatchOption};
ghost use Rattle.pil_ast.specs.Tree.{namespaces};
ghost use Rattle.pil_ast.specs.Columns.{Columns as Values, Fits};
ghost use Rattle.pil_ast.specs.Sound.{IsSound};
ghost use Rattle.pil_ast.specs.Holds.{AllHold, lines};
ghost use Rattle.row_check.specs.Breaks.{IsFirstBroken};
ghost use Rattle.pil_program.specs.Publics.{NoneIsNamed};
ghost use Rattle.instance_pass.specs.Passes.{AllMet, FailsLeast, Says, IsSameInstance, AreTabled, TakesRows, AtEach};
ghost use Rattle.pil_checker.specs.Programs.{nodes_at};
ghost use Rattle.pil_checker.specs.Standing.{IsBuilt, IsSameBut, StandsFor, SendAlike, AreAllAdded, added, limit_of, found_after};

use crate::differences::difference_of;
use crate::plans::Plan;
use instance_pass::{Asked, Found, Place, pass};
use pil_ast::{Columns, Pil};
use pil_program::{Block, InstanceColumns, Program};
use row_check::Broken;
use std::alloc::{AllocError, Global};

/// A line by number, from 0, and a row of an instance at which it is broken.
#[derive(Clone, Copy)]
pub struct Spot {
    pub line: usize,
    pub instance: u32,
    pub row: u32,
}

/// The lines of a text, and what is known of the instances that were added: the least broken identity
/// or `in`, and the tuples of each `is`.
#[derive(Drop)]
pub struct Checker {
    plan: Plan,
    /// How many instances of each namespace were added.
    counts: Vec<u32>,
    found: Option<Spot>,
    /// Room for the values of the longest program.
    blocks: Vec<Block>,
}

/// The steps of the longest program.
fn most_steps(programs: &[Program]) -> usize
    ensures { (s : ℕ) → length (nodes_at programs.now s) ≤ result }
{
    let mut most = 0;
    for program in programs {
        most = program.as_slice().len().max(most);
    }
    most
}

impl Checker {
    /// A checker to which no instance was added. The columns have the constants of all instances: what
    /// the right sides of `in`s read.
    pub fn new<C: InstanceColumns>(
        alloc: Global,
        pil: &Pil,
        constants: &C,
    ) -> Result<Checker, AllocError>
        requires sound { IsSound (namespaces pil.now) }
        requires unnamed { NoneIsNamed (namespaces pil.now) }
        requires fits { Fits (namespaces pil.now) (C.values constants.now) }
        ensures built { IfOk result (λ k. IsBuilt (namespaces pil.now) k) }
        ensures none { IfOk result (λ k. (s : ℕ) → added k s ≡ 0) }
        ensures stands { IfOk result (λ k. (c : Values) → SendAlike (namespaces pil.now) (C.values constants.now) c → StandsFor (namespaces pil.now) c k) }
    {
        let plan = Plan::new(alloc, pil, constants)?;
        let counts = vec![in alloc; 0u32; pil.spaces.len()]?;
        let blocks = vec![in alloc; Block::ZERO; most_steps(&plan.programs)]?;
        Ok(Checker {
            plan,
            counts,
            found: None,
            blocks,
        })
    }

    /// The number of the line that is known to be broken, or of lines.
    fn limit(&self) -> usize
        ensures { result ≡ limit_of self.now.found (length self.now.plan.checks.items) }
    {
        match &self.found {
            Some(spot) => spot.line,
            None => self.plan.checks.len(),
        }
    }

    /// The first line before the one that is known to be broken that fails at a row of an instance; and
    /// the parts take what its rows send.
    fn look<C: InstanceColumns>(
        &mut self,
        alloc: Global,
        pil: &Pil,
        columns: &C,
        space: u32,
        instance: u32,
    ) -> Result<Option<Found>, AllocError>
        requires fits { Fits (namespaces pil.now) (C.values columns.now) }
        requires space { space < (C.values columns.now).spaces }
        requires instance { instance < (C.values columns.now).instances space }
        requires built { IsBuilt (namespaces pil.now) self.old }
        ensures same { OnOk result (IsSameBut self.old self.new) }
        ensures inside { IfOk result (λ found. MatchOption found (Unit {0}) (λ f. (f.check < limit_of self.old.found (length self.old.plan.checks.items)) × (f.row < (C.values columns.now).rows space))) }
        ensures found { IfOk result (λ found. (c : Values) → IsSameInstance (C.values columns.now) c space instance → AreTabled (namespaces pil.now) c self.old.plan.tables.items self.old.plan.checks.items → MatchOption found (AllMet (Says (namespaces pil.now) c space instance) (limit_of self.old.found (length self.old.plan.checks.items)) ((C.values columns.now).rows space)) (λ f. FailsLeast (Says (namespaces pil.now) c space instance) (limit_of self.old.found (length self.old.plan.checks.items)) ((C.values columns.now).rows space) f.check f.row)) }
        ensures parts { OnOk result ((c : Values) → IsSameInstance (C.values columns.now) c space instance → AtEach (TakesRows (namespaces pil.now) c space instance ((C.values columns.now).rows space) (nodes_at self.old.plan.programs.items space)) self.old.plan.parts.items self.new.plan.parts.items) }
    {
        let place = Place {
            space,
            instance,
            rows: pil.rows(space) as usize,
        };
        let limit = self.limit();
        let asked = Asked {
            nodes: self.plan.programs[space as usize].as_slice(),
            checks: &self.plan.checks,
            limit,
            tables: &self.plan.tables,
        };
        pass(
            alloc,
            columns,
            &place,
            &asked,
            &mut self.plan.parts,
            &mut self.blocks,
        )
    }

    /// Notes that an instance was looked at, and what was found there.
    fn note(&mut self, found: Option<Found>, space: u32, instance: u32)
        requires space { space < length self.old.counts.items }
        requires instance { instance + 1 < 2 ^ 32 }
        requires row { MatchOption found (Unit {0}) (λ f. f.row < 2 ^ 32) }
        ensures plan { self.new.plan ≡ self.old.plan }
        ensures counts { self.new.counts.items ≡ slice_set self.old.counts.items space (instance + 1) }
        ensures found { self.new.found ≡ found_after self.old.found found instance }
        ensures room { length self.new.blocks.items ≡ length self.old.blocks.items }
    {
        if let Some(f) = found {
            self.found = Some(Spot {
                line: f.check,
                instance,
                row: f.row as u32,
            });
        }
        self.counts[space as usize] = instance + 1;
    }

    /// Adds an instance of a namespace, which is the next. Of the columns this instance alone is read.
    pub fn add<C: InstanceColumns>(
        &mut self,
        alloc: Global,
        pil: &Pil,
        columns: &C,
        space: u32,
        instance: u32,
    ) -> Result<(), AllocError>
        requires sound { IsSound (namespaces pil.now) }
        requires fits { Fits (namespaces pil.now) (C.values columns.now) }
        requires space { space < (C.values columns.now).spaces }
        requires instance { instance < (C.values columns.now).instances space }
        requires built { IsBuilt (namespaces pil.now) self.old }
        requires next { added self.old space ≡ instance }
        ensures built { OnOk result (IsBuilt (namespaces pil.now) self.new) }
        ensures counts { OnOk result (self.new.counts.items ≡ slice_set self.old.counts.items space (instance + 1)) }
        ensures stands { OnOk result ((c : Values) → StandsFor (namespaces pil.now) c self.old → IsSameInstance (C.values columns.now) c space instance → StandsFor (namespaces pil.now) c self.new) }
    {
        let found = self.look(alloc, pil, columns, space, instance)?;
        self.note(found, space, instance);
        Ok(())
    }

    /// The first broken line, where all instances were added.
    pub fn finish(self, alloc: Global, pil: &Pil) -> Result<Option<Broken>, AllocError>
        requires sound { IsSound (namespaces pil.now) }
        requires built { IsBuilt (namespaces pil.now) self }
        ensures { IfOk result (λ found. (c : Values) → StandsFor (namespaces pil.now) c self → AreAllAdded (namespaces pil.now) c self → MatchOption found (AllHold (namespaces pil.now) c) (λ broken. IsFirstBroken (namespaces pil.now) c broken)) }
    {
        let limit = self.limit();
        let Checker {
            mut plan,
            found,
            ..
        } = self;
        for line in 0..limit {
            match difference_of(alloc, pil, &mut plan, line)? {
                Some(broken) => return Ok(Some(broken)),
                None => {}
            }
        }
        match found {
            Some(spot) => Ok(Some(Broken::At {
                line: spot.line as u32 + 1,
                instance: spot.instance,
                row: spot.row,
            })),
            None => Ok(None),
        }
    }
}
