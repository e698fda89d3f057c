//! A run over the instances of tables, which are added one at a time.
ghost use Rattle.std.specs.Prelude.{◌≡◌, ◌≢◌, ◌<◌, ◌≤◌, ◌-◌, ◌∷◌, ◌++◌, ℕ, [], List, Some, length, slice_get, OnOk, OnErr, IfOk, MatchOption};
ghost use Rattle.pil_ast.specs.Tree.{line as line_of_item, namespaces};
ghost use Rattle.pil_ast.specs.Term.{Namespace, item_at};
ghost use Rattle.pil_ast.specs.Columns.{Fits};
ghost use Rattle.pil_ast.specs.Sound.{IsSound};
ghost use Rattle.pil_ast.specs.Filled.{IsMadeOf};
ghost use Rattle.pil_ast.specs.Holds.{AsOften, lines};
ghost use Rattle.pil_lines.specs.Places.{ArePlaces};
ghost use Rattle.bus_check.specs.Bus.{IsBus, IsBusOf, DiffersBy};
ghost use Rattle.bus_check.specs.declared.runs.Sides.{Sides as SidesOf};
ghost use Rattle.bus_check.specs.Run.{Added, AgreeFrom, DifferFrom, IsSum, RunStandsFor, IsSpent, IsRunOf, Takes, AtEach};

use crate::buses::first_difference;
use crate::rows::push_from;
use crate::tuples::TupleList;
use pil_ast::{Columns, Item, Pil, RowValues};
use pil_lines::{LinePlace, line_at, line_places};
use row_check::Broken;
use std::alloc::{AllocError, Global};

/// The tuples of both sides of a line, where it is an `is`.
#[derive(Drop)]
pub struct Sides {
    left: TupleList,
    right: TupleList,
}

/// The tuples that the sides of each `is` of a text have from the instances that were added. Once memory
/// was refused it stays refused.
#[derive(Drop)]
pub struct BusRun {
    places: Vec<LinePlace>,
    /// By line.
    sides: Vec<Sides>,
    inters: RowValues,
    spent: bool,
}

impl Sides {
    /// Puts what a line sends from an instance at the end, where it is an `is`.
    fn take<C: Columns>(
        &mut self,
        alloc: Global,
        pil: &Pil,
        columns: &C,
        item: &Item,
        space: u32,
        instance: u32,
        inters: &mut RowValues,
    ) -> Result<(), AllocError>
        requires sound { IsSound (namespaces pil.now) }
        requires fits { Fits (namespaces pil.now) (C.values columns.now) }
        requires made { IsMadeOf (namespaces pil.now) inters.old }
        requires lists { IsBus (line_of_item item.now) → IsBusOf (namespaces pil.now) (line_of_item item.now) }
        requires space { space < (C.values columns.now).spaces }
        requires instance { instance < (C.values columns.now).instances space }
        ensures made { OnOk result (IsMadeOf (namespaces pil.now) inters.new) }
        ensures takes { OnOk result (Takes (namespaces pil.now) (record { columns = C.values columns.now; space = space; instance = instance }) (line_of_item item.now) self.old self.new) }
    {
        match item {
            Item::Bus { left, right } => {
                let mine = &mut self.left;
                push_from(
                    alloc,
                    pil,
                    columns,
                    left.as_slice(),
                    space,
                    instance,
                    inters,
                    mine,
                )?;
                let mine = &mut self.right;
                push_from(
                    alloc,
                    pil,
                    columns,
                    right.as_slice(),
                    space,
                    instance,
                    inters,
                    mine,
                )
            }
            _ => Ok(()),
        }
    }

    /// The least tuple that the sides, those of the line with this number, don't have equally often.
    fn difference(&self, alloc: Global, line: u32) -> Result<Option<Broken>, AllocError>
        ensures { IfOk result (λ found. MatchOption found (AsOften self.now.left self.now.right) (λ broken. DiffersBy line self.now.left self.now.right broken)) }
    {
        let mut left = TupleList::new(alloc);
        left.extend(alloc, &self.left)?;
        let mut right = TupleList::new(alloc);
        right.extend(alloc, &self.right)?;
        first_difference(alloc, line, left, right)
    }
}

/// Sides without a tuple, so many.
fn empty_sides(alloc: Global, count: usize) -> Result<Vec<Sides>, AllocError>
    ensures long { IfOk result (λ sides. length sides.items ≡ count) }
    ensures empty { IfOk result (λ sides. (k : ℕ) (s : SidesOf) → slice_get sides.items k ≡ Some s → (s.left ≡ []) × (s.right ≡ [])) }
{
    let mut sides = Vec::new(alloc);
    for _ in 0..count {
        sides.push(Sides {
            left: TupleList::new(alloc),
            right: TupleList::new(alloc),
        })?;
    }
    Ok(sides)
}

/// Puts what each line that is an `is` sends from an instance at the end of its sides.
fn take_lines<C: Columns>(
    alloc: Global,
    pil: &Pil,
    columns: &C,
    space: u32,
    instance: u32,
    places: &[LinePlace],
    sides: &mut [Sides],
    inters: &mut RowValues,
) -> Result<(), AllocError>
    requires sound { IsSound (namespaces pil.now) }
    requires fits { Fits (namespaces pil.now) (C.values columns.now) }
    requires made { IsMadeOf (namespaces pil.now) inters.old }
    requires space { space < (C.values columns.now).spaces }
    requires instance { instance < (C.values columns.now).instances space }
    requires places { ArePlaces (namespaces pil.now) places.now }
    requires long { length sides.old ≡ length (lines (namespaces pil.now)) }
    ensures made { OnOk result (IsMadeOf (namespaces pil.now) inters.new) }
    ensures takes { OnOk result (AtEach (λ k. Takes (namespaces pil.now) (record { columns = C.values columns.now; space = space; instance = instance }) (item_at (lines (namespaces pil.now)) k)) sides.old sides.new) }
{
    for line in 0..places.len() {
        let item = line_at(pil, places, line);
        sides[line].take(alloc, pil, columns, item, space, instance, inters)?;
    }
    Ok(())
}

impl BusRun {
    /// A run over the lines of a text, to which no instance was added.
    pub fn new(alloc: Global, pil: &Pil) -> Result<BusRun, AllocError>
        requires { IsSound (namespaces pil.now) }
        ensures open { IfOk result (λ run. IsRunOf (namespaces pil.now) run × (IsSpent run → ⊥)) }
        ensures stands { IfOk result (λ run. RunStandsFor (namespaces pil.now) [] run) }
    {
        let places = line_places(alloc, pil)?;
        let sides = empty_sides(alloc, places.len())?;
        Ok(BusRun {
            places,
            sides,
            inters: RowValues::new(alloc, pil)?,
            spent: false,
        })
    }

    /// Adds an instance of a namespace: the tuples that it sends on both sides of each `is`. Of the
    /// columns this instance alone is read, and what publics name. Once an instance was refused for want
    /// of memory, each is.
    pub fn add<C: Columns>(
        &mut self,
        alloc: Global,
        pil: &Pil,
        columns: &C,
        space: u32,
        instance: u32,
    ) -> Result<(), AllocError>
        requires sound { IsSound (namespaces pil.now) }
        requires fits { Fits (namespaces pil.now) (C.values columns.now) }
        requires run { IsRunOf (namespaces pil.now) self.old }
        requires space { space < (C.values columns.now).spaces }
        requires instance { instance < (C.values columns.now).instances space }
        ensures run { IsRunOf (namespaces pil.now) self.new }
        ensures stands { OnOk result ((xs : List Added) → RunStandsFor (namespaces pil.now) xs self.old → RunStandsFor (namespaces pil.now) (xs ++ record { columns = C.values columns.now; space = space; instance = instance } ∷ []) self.new) }
        ensures refused { OnErr result (IsSpent self.new) }
        ensures spent { OnOk result ((IsSpent self.old → ⊥) × (IsSpent self.new → ⊥)) }
    {
        if self.spent {
            return Err(AllocError);
        }
        self.spent = true;
        let places = self.places.as_slice();
        let inters = &mut self.inters;
        take_lines(
            alloc,
            pil,
            columns,
            space,
            instance,
            places,
            &mut self.sides,
            inters,
        )?;
        self.spent = false;
        Ok(())
    }

    /// The least tuple that the sides of the line with this number, an `is`, don't have equally often
    /// over the instances that were added, with both counts; None exactly where all counts agree.
    pub fn finish(&self, alloc: Global, line: u32) -> Result<Option<Broken>, AllocError>
        requires first { 1 ≤ line }
        ensures counts { IfOk result (λ found. (ns : List Namespace) (xs : List Added) → RunStandsFor ns xs self.now → line ≤ length (lines ns) → IsSum (item_at (lines ns) (line - 1)) → MatchOption found (AgreeFrom ns xs (item_at (lines ns) (line - 1))) (λ broken. DifferFrom ns xs (item_at (lines ns) (line - 1)) line broken)) }
        ensures spent { OnOk result (IsSpent self.now → ⊥) }
    {
        if self.spent {
            return Err(AllocError);
        }
        let before = line as usize - 1;
        if before < self.sides.len() {
            self.sides[before].difference(alloc, line)
        } else {
            Ok(None)
        }
    }
}
