//! The check of an `in`.
ghost use Rattle.std.specs.Prelude.{◌≡◌, ◌<◌, ◌↔◌, IsTrue, IfOk, MatchOption};
ghost use Rattle.pil_ast.specs.Tree.{tuples as list_of, namespaces};
ghost use Rattle.pil_ast.specs.Term.{lookup};
ghost use Rattle.pil_ast.specs.Columns.{Fits};
ghost use Rattle.pil_ast.specs.Sound.{IsSound};
ghost use Rattle.pil_ast.specs.Filled.{IsMadeOf};
ghost use Rattle.pil_ast.specs.Holds.{Holds, AtEachRow, sent};
ghost use Rattle.pil_ast.specs.Broken.{FailsFirst};
ghost use Rattle.row_check.specs.Breaks.{IsBreakOf};
ghost use Rattle.bus_check.specs.Bus.{IsListOf, IsOrdered, Ascend, StandsAt, AtEachRowOf, FailsFirstOf};

use crate::rows::{push_list, row_tuple};
use crate::tuples::TupleList;
use pil_ast::{Columns, List, Pil, RowValues};
use row_check::Broken;
use std::alloc::{AllocError, Global};

/// A row of an instance.
#[derive(Drop)]
struct Spot {
    instance: u32,
    row: u32,
}

/// The tuples of the selected rows of a list, over all instances, in order.
fn ordered_list<C: Columns>(
    alloc: Global,
    pil: &Pil,
    columns: &C,
    list: &List,
    inters: &mut RowValues,
) -> Result<TupleList, AllocError>
    requires sound { IsSound (namespaces pil.now) }
    requires fits { Fits (namespaces pil.now) (C.values columns.now) }
    requires made { IsMadeOf (namespaces pil.now) inters.old }
    requires list { IsListOf (namespaces pil.now) (list_of list.now) }
    ensures made { IsMadeOf (namespaces pil.now) inters.new }
    ensures ordered { IfOk result (λ tuples. IsOrdered (sent (namespaces pil.now) (C.values columns.now) (list_of list.now)) tuples) }
{
    let mut tuples = TupleList::new(alloc);
    push_list(alloc, pil, columns, list, inters, &mut tuples)?;
    tuples.sort();
    Ok(tuples)
}

/// Whether a row's tuple is one of those on the right, or the row isn't selected.
fn stands_at<C: Columns>(
    alloc: Global,
    pil: &Pil,
    columns: &C,
    left: &List,
    right: &TupleList,
    instance: u32,
    row: u32,
    inters: &mut RowValues,
) -> Result<bool, AllocError>
    requires sound { IsSound (namespaces pil.now) }
    requires fits { Fits (namespaces pil.now) (C.values columns.now) }
    requires made { IsMadeOf (namespaces pil.now) inters.old }
    requires list { IsListOf (namespaces pil.now) (list_of left.now) }
    requires right { Ascend right.now }
    requires instance { instance < (C.values columns.now).instances left.now.space }
    requires row { row < (C.values columns.now).rows left.now.space }
    ensures made { IsMadeOf (namespaces pil.now) inters.new }
    ensures stands { IfOk result (λ found. IsTrue found ↔ StandsAt (namespaces pil.now) (C.values columns.now) (list_of left.now) right.now instance row) }
{
    match row_tuple(alloc, pil, columns, left, instance, row, inters)? {
        None => Ok(true),
        Some(tuple) => Ok(right.has(tuple.as_slice())),
    }
}

/// The first row of an instance whose tuple isn't on the right.
fn first_missing_row<C: Columns>(
    alloc: Global,
    pil: &Pil,
    columns: &C,
    left: &List,
    right: &TupleList,
    instance: u32,
    inters: &mut RowValues,
) -> Result<Option<u32>, AllocError>
    requires sound { IsSound (namespaces pil.now) }
    requires fits { Fits (namespaces pil.now) (C.values columns.now) }
    requires made { IsMadeOf (namespaces pil.now) inters.old }
    requires list { IsListOf (namespaces pil.now) (list_of left.now) }
    requires right { Ascend right.now }
    requires instance { instance < (C.values columns.now).instances left.now.space }
    ensures made { IsMadeOf (namespaces pil.now) inters.new }
    ensures first { IfOk result (λ found. MatchOption found (AtEachRowOf (C.values columns.now) left.now.space (StandsAt (namespaces pil.now) (C.values columns.now) (list_of left.now) right.now) instance) (λ row. FailsFirstOf (C.values columns.now) left.now.space (StandsAt (namespaces pil.now) (C.values columns.now) (list_of left.now) right.now) instance row)) }
{
    for row in 0..pil.rows(left.space) {
        if !stands_at(alloc, pil, columns, left, right, instance, row, inters)? {
            return Ok(Some(row));
        }
    }
    Ok(None)
}

/// The first row of all instances whose tuple isn't on the right.
fn first_missing<C: Columns>(
    alloc: Global,
    pil: &Pil,
    columns: &C,
    left: &List,
    right: &TupleList,
    inters: &mut RowValues,
) -> Result<Option<Spot>, AllocError>
    requires sound { IsSound (namespaces pil.now) }
    requires fits { Fits (namespaces pil.now) (C.values columns.now) }
    requires made { IsMadeOf (namespaces pil.now) inters.old }
    requires list { IsListOf (namespaces pil.now) (list_of left.now) }
    requires right { Ascend right.now }
    ensures made { IsMadeOf (namespaces pil.now) inters.new }
    ensures first { IfOk result (λ found. MatchOption found (AtEachRow (C.values columns.now) left.now.space (StandsAt (namespaces pil.now) (C.values columns.now) (list_of left.now) right.now)) (λ spot. FailsFirst (C.values columns.now) left.now.space (StandsAt (namespaces pil.now) (C.values columns.now) (list_of left.now) right.now) spot.instance spot.row)) }
{
    for instance in 0..columns.instances(left.space) {
        match first_missing_row(alloc, pil, columns, left, right, instance, inters)? {
            Some(row) => return Ok(Some(Spot { instance, row })),
            None => {}
        }
    }
    Ok(None)
}

/// Checks an `in` between two lists, which has this number.
pub fn check_in<C: Columns>(
    alloc: Global,
    pil: &Pil,
    columns: &C,
    line: u32,
    left: &List,
    right: &List,
    inters: &mut RowValues,
) -> Result<Option<Broken>, AllocError>
    requires sound { IsSound (namespaces pil.now) }
    requires fits { Fits (namespaces pil.now) (C.values columns.now) }
    requires made { IsMadeOf (namespaces pil.now) inters.old }
    requires left { IsListOf (namespaces pil.now) (list_of left.now) }
    requires right { IsListOf (namespaces pil.now) (list_of right.now) }
    ensures made { IsMadeOf (namespaces pil.now) inters.new }
    ensures found { IfOk result (λ found. MatchOption found (Holds (namespaces pil.now) (C.values columns.now) (lookup (list_of left.now) (list_of right.now))) (λ broken. IsBreakOf (namespaces pil.now) (C.values columns.now) (lookup (list_of left.now) (list_of right.now)) line broken)) }
{
    let tuples = ordered_list(alloc, pil, columns, right, inters)?;
    match first_missing(alloc, pil, columns, left, &tuples, inters)? {
        None => Ok(None),
        Some(spot) => Ok(Some(Broken::At {
            line,
            instance: spot.instance,
            row: spot.row,
        })),
    }
}
