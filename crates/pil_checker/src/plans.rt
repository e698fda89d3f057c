//! All lines of a text.
ghost use Rattle.std.specs.Prelude.{◌≡◌, ◌+◌, ◌-◌, ◌<◌, ◌≤◌, ◌^◌, Some, length, slice_get, IfOk, OnOk, MatchOption};
ghost use Rattle.pil_ast.specs.Tree.{line as line_of, tuples as list_of, namespaces};
ghost use Rattle.pil_ast.specs.Columns.{Columns as Values, Fits};
ghost use Rattle.pil_ast.specs.Sound.{IsSound};
ghost use Rattle.pil_ast.specs.Holds.{lines};
ghost use Rattle.pil_program.specs.Publics.{NoneIsNamed};
ghost use Rattle.pil_lines.specs.Places.{ArePlaces};
ghost use Rattle.instance_pass.specs.Passes.{AreTabled};
ghost use Rattle.pil_checker.specs.Plans.{IsLineOf, HasTable, IsTableOf, IsTableOfCheck, AreIdle, IsPlanUpTo, IsPlanOf};

use crate::lines::{Span, place_check, place_span};
use crate::placing::programs_of;
use crate::sameness::{code, same_list};
use instance_pass::{Check, Part, Table};
use pil_ast::{Columns, Item, List, Pil};
use pil_lines::{LinePlace, line_at, line_places};
use pil_program::{InstanceColumns, Program};
use std::alloc::{AllocError, Global};

/// The lines of a text in order: what each asks of each row, and the parts of each `is`.
#[derive(Drop)]
pub struct Plan {
    /// By namespace.
    pub programs: Vec<Program>,
    /// By line.
    pub checks: Vec<Check>,
    pub spans: Vec<Span>,
    /// The right sides of `in`s.
    pub tables: Vec<Table>,
    /// The lists of `is`s.
    pub parts: Vec<Part>,
    /// By a remainder of the code of an `in`'s right side the last such line; nothing rests on it.
    latest: Vec<usize>,
}

/// The slot of a list among so many.
fn slot(list: &List, slots: usize) -> usize {
    if slots == 0 {
        return 0;
    }
    ((code(list) >> 20) % slots as u64) as usize
}

/// Remembers the line with this number from 0, if it is an `in`.
fn remember(latest: &mut [usize], item: &Item, number: usize) {
    if let Item::Lookup { left: _, right } = item {
        let slot = slot(right, latest.len());
        if slot < latest.len() {
            latest[slot] = number;
        }
    }
}

/// The table of a check.
fn table_of_check(check: &Check) -> Option<usize>
    ensures { MatchOption result (Unit {0}) (IsTableOfCheck check.now) }
{
    match check {
        Check::Among { left: _, table } => Some(*table),
        _ => None,
    }
}

impl Plan {
    /// The table of an `in`, where the line with this number from 0 has a table of the same list.
    fn table_at(
        &self,
        pil: &Pil,
        places: &[LinePlace],
        number: usize,
        right: &List,
    ) -> Option<usize>
        requires places { ArePlaces (namespaces pil.now) places.now }
        requires few { length self.now.checks.items ≤ length places.now }
        requires inside { number < length self.now.checks.items }
        requires planned { IsPlanUpTo (namespaces pil.now) self.now (length self.now.checks.items) }
        ensures { MatchOption result (Unit {0}) (λ k. (d : Values) → AreTabled (namespaces pil.now) d self.now.tables.items self.now.checks.items → HasTable (namespaces pil.now) d self.now.tables.items (list_of right.now) k) }
    {
        match line_at(pil, places, number) {
            Item::Lookup {
                left: _,
                right: other,
            } => {
                if same_list(other, right) {
                    table_of_check(&self.checks[number])
                } else {
                    None
                }
            }
            _ => None,
        }
    }

    /// The line by number from 0 that is remembered for a list, or a number that is no line.
    fn remembered(&self, list: &List) -> usize {
        match self.latest.get(slot(list, self.latest.len())) {
            Some(number) => *number,
            None => self.checks.len(),
        }
    }

    /// The table of an `in`, where an earlier line has a table of the same list and is remembered.
    fn known_list(&self, pil: &Pil, places: &[LinePlace], right: &List) -> Option<usize>
        requires places { ArePlaces (namespaces pil.now) places.now }
        requires few { length self.now.checks.items ≤ length places.now }
        requires planned { IsPlanUpTo (namespaces pil.now) self.now (length self.now.checks.items) }
        ensures { MatchOption result (Unit {0}) (λ k. (d : Values) → AreTabled (namespaces pil.now) d self.now.tables.items self.now.checks.items → HasTable (namespaces pil.now) d self.now.tables.items (list_of right.now) k) }
    {
        let number = self.remembered(right);
        if number < self.checks.len() {
            self.table_at(pil, places, number, right)
        } else {
            None
        }
    }

    /// The table of a line, where an earlier line has it and is remembered.
    fn known_table(&self, pil: &Pil, places: &[LinePlace], item: &Item) -> Option<usize>
        requires places { ArePlaces (namespaces pil.now) places.now }
        requires few { length self.now.checks.items ≤ length places.now }
        requires planned { IsPlanUpTo (namespaces pil.now) self.now (length self.now.checks.items) }
        ensures { MatchOption result (Unit {0}) (λ k. (d : Values) → AreTabled (namespaces pil.now) d self.now.tables.items self.now.checks.items → IsTableOf (namespaces pil.now) d self.now.tables.items (line_of item.now) k) }
    {
        match item {
            Item::Lookup { left: _, right } => self.known_list(pil, places, right),
            _ => None,
        }
    }

    /// Puts a line at the end, which is the next.
    fn push_item<C: InstanceColumns>(
        &mut self,
        alloc: Global,
        pil: &Pil,
        columns: &C,
        places: &[LinePlace],
        item: &Item,
    ) -> Result<(), AllocError>
        requires sound { IsSound (namespaces pil.now) }
        requires places { ArePlaces (namespaces pil.now) places.now }
        requires few { length self.old.checks.items ≤ length places.now }
        requires fits { Fits (namespaces pil.now) (C.values columns.now) }
        requires line { IsLineOf (namespaces pil.now) (line_of item.now) }
        requires next { slice_get (lines (namespaces pil.now)) (length self.old.checks.items) ≡ Some (line_of item.now) }
        requires planned { IsPlanUpTo (namespaces pil.now) self.old (length self.old.checks.items) }
        requires tabled { AreTabled (namespaces pil.now) (C.values columns.now) self.old.tables.items self.old.checks.items }
        requires idle { AreIdle self.old.parts.items }
        ensures planned { OnOk result (IsPlanUpTo (namespaces pil.now) self.new (length self.old.checks.items + 1)) }
        ensures tabled { OnOk result (AreTabled (namespaces pil.now) (C.values columns.now) self.new.tables.items self.new.checks.items) }
        ensures idle { OnOk result (AreIdle self.new.parts.items) }
    {
        let known = self.known_table(pil, places, item);
        let check = place_check(
            alloc,
            pil,
            columns,
            item,
            known,
            &mut self.programs,
            &mut self.tables,
        )?;
        let span = place_span(alloc, pil, item, &mut self.programs, &mut self.parts)?;
        remember(&mut self.latest, item, self.checks.len());
        self.checks.push(check)?;
        self.spans.push(span)?;
        Ok(())
    }

    /// The lines of a text, whose right sides of `in`s are what these columns send.
    pub fn new<C: InstanceColumns>(
        alloc: Global,
        pil: &Pil,
        columns: &C,
    ) -> Result<Plan, AllocError>
        requires sound { IsSound (namespaces pil.now) }
        requires unnamed { NoneIsNamed (namespaces pil.now) }
        requires fits { Fits (namespaces pil.now) (C.values columns.now) }
        ensures planned { IfOk result (λ plan. IsPlanOf (namespaces pil.now) plan) }
        ensures tabled { IfOk result (λ plan. AreTabled (namespaces pil.now) (C.values columns.now) plan.tables.items plan.checks.items) }
        ensures idle { IfOk result (λ plan. AreIdle plan.parts.items) }
    {
        let places = line_places(alloc, pil)?;
        let mut plan = Plan {
            programs: programs_of(alloc, pil)?,
            checks: Vec::new(alloc),
            spans: Vec::new(alloc),
            tables: Vec::new(alloc),
            parts: Vec::new(alloc),
            latest: vec![in alloc; 0usize; places.len()]?,
        };
        for before in 0..places.len() {
            let item = line_at(pil, &places, before);
            plan.push_item(alloc, pil, columns, &places, item)?;
        }
        Ok(plan)
    }
}
