//! The check of an identity.
ghost use Rattle.std.specs.Prelude.{ℕ, ◌≡◌, ◌<◌, ◌≤◌, ◌-◌, ◌↔◌, IsTrue, length, IfOk, MatchOption};
ghost use Rattle.pil_ast.specs.Tree.{term, line as line_of_item, namespaces};
ghost use Rattle.pil_ast.specs.Term.{item_at};
ghost use Rattle.pil_ast.specs.Columns.{Fits};
ghost use Rattle.pil_ast.specs.Sound.{IsSound, IsTerm};
ghost use Rattle.pil_ast.specs.Filled.{IsMadeOf};
ghost use Rattle.pil_ast.specs.Holds.{EqualAt, AtEachRow, Holds, lines};
ghost use Rattle.pil_ast.specs.Broken.{FailsFirst};
ghost use Rattle.row_check.specs.Breaks.{IsBreak, IsBreakOf, IsIdentity, IsIdentityOf, IsEqual, IsUnequalFirst, HoldsIn, IsBreakIn, space_of};

use crate::broken::Broken;
use pil_ast::{Columns, Expr, Item, Pil, RowValues, eval};
use std::alloc::{AllocError, Global};

/// A row of an instance.
#[derive(Drop)]
struct Spot {
    instance: u32,
    row: u32,
}

/// Whether two expressions have one value at a row.
fn equal_at<C: Columns>(
    pil: &Pil,
    columns: &C,
    space: u32,
    left: &Expr,
    right: &Expr,
    instance: u32,
    row: u32,
    inters: &mut RowValues,
) -> bool
    requires sound { IsSound (namespaces pil.now) }
    requires fits { Fits (namespaces pil.now) (C.values columns.now) }
    requires made { IsMadeOf (namespaces pil.now) inters.old }
    requires space { space < (C.values columns.now).spaces }
    requires instance { instance < (C.values columns.now).instances space }
    requires row { row < (C.values columns.now).rows space }
    requires left { IsTerm (namespaces pil.now) space (term left.now) }
    requires right { IsTerm (namespaces pil.now) space (term right.now) }
    ensures made { IsMadeOf (namespaces pil.now) inters.new }
    ensures equal { IsTrue result ↔ EqualAt (namespaces pil.now) (C.values columns.now) space (term left.now) (term right.now) instance row }
{
    inters.fill(pil, columns, space, instance, row);
    let left = eval(pil, columns, left, instance, row, inters);
    let right = eval(pil, columns, right, instance, row, inters);
    left.value() == right.value()
}

/// The first row of an instance at which two expressions differ.
fn first_unequal_row<C: Columns>(
    pil: &Pil,
    columns: &C,
    space: u32,
    left: &Expr,
    right: &Expr,
    instance: u32,
    inters: &mut RowValues,
) -> Option<u32>
    requires sound { IsSound (namespaces pil.now) }
    requires fits { Fits (namespaces pil.now) (C.values columns.now) }
    requires made { IsMadeOf (namespaces pil.now) inters.old }
    requires space { space < (C.values columns.now).spaces }
    requires instance { instance < (C.values columns.now).instances space }
    requires left { IsTerm (namespaces pil.now) space (term left.now) }
    requires right { IsTerm (namespaces pil.now) space (term right.now) }
    ensures made { IsMadeOf (namespaces pil.now) inters.new }
    ensures first { MatchOption result (IsEqual (namespaces pil.now) (C.values columns.now) space (term left.now) (term right.now) instance) (λ row. IsUnequalFirst (namespaces pil.now) (C.values columns.now) space (term left.now) (term right.now) instance row) }
{
    for row in 0..pil.rows(space) {
        if !equal_at(pil, columns, space, left, right, instance, row, inters) {
            return Some(row);
        }
    }
    None
}

/// The first row of all instances at which two expressions differ.
fn first_unequal<C: Columns>(
    pil: &Pil,
    columns: &C,
    space: u32,
    left: &Expr,
    right: &Expr,
    inters: &mut RowValues,
) -> Option<Spot>
    requires sound { IsSound (namespaces pil.now) }
    requires fits { Fits (namespaces pil.now) (C.values columns.now) }
    requires made { IsMadeOf (namespaces pil.now) inters.old }
    requires space { space < (C.values columns.now).spaces }
    requires left { IsTerm (namespaces pil.now) space (term left.now) }
    requires right { IsTerm (namespaces pil.now) space (term right.now) }
    ensures made { IsMadeOf (namespaces pil.now) inters.new }
    ensures first { MatchOption result (AtEachRow (C.values columns.now) space (EqualAt (namespaces pil.now) (C.values columns.now) space (term left.now) (term right.now))) (λ spot. FailsFirst (C.values columns.now) space (EqualAt (namespaces pil.now) (C.values columns.now) space (term left.now) (term right.now)) spot.instance spot.row) }
{
    for instance in 0..columns.instances(space) {
        match first_unequal_row(pil, columns, space, left, right, instance, inters) {
            Some(row) => return Some(Spot { instance, row }),
            None => {}
        }
    }
    None
}

/// Checks an identity, which is the line with this number: None exactly where it holds, else the least
/// row, by instance and then by row, at which its sides differ (docs/PIL.md, "The first broken line").
pub fn check_rows<C: Columns>(
    alloc: Global,
    pil: &Pil,
    columns: &C,
    line: u32,
) -> Result<Option<Broken>, AllocError>
    requires sound { IsSound (namespaces pil.now) }
    requires fits { Fits (namespaces pil.now) (C.values columns.now) }
    requires first { 1 ≤ line }
    requires identity { IsIdentity (item_at (lines (namespaces pil.now)) (line - 1)) }
    requires inside { line ≤ length (lines (namespaces pil.now)) }
    ensures { IfOk result (λ found. MatchOption found (Holds (namespaces pil.now) (C.values columns.now) (item_at (lines (namespaces pil.now)) (line - 1))) (λ broken. IsBreak (namespaces pil.now) (C.values columns.now) line broken)) }
{
    match pil.line(line) {
        Some(item) => check_item(alloc, pil, columns, line, item),
        None => Ok(None),
    }
}

/// Checks an identity, which has this number, in room of its own.
fn check_item<C: Columns>(
    alloc: Global,
    pil: &Pil,
    columns: &C,
    line: u32,
    item: &Item,
) -> Result<Option<Broken>, AllocError>
    requires sound { IsSound (namespaces pil.now) }
    requires fits { Fits (namespaces pil.now) (C.values columns.now) }
    requires identity { IsIdentityOf (namespaces pil.now) (line_of_item item.now) }
    ensures { IfOk result (λ found. MatchOption found (Holds (namespaces pil.now) (C.values columns.now) (line_of_item item.now)) (λ broken. IsBreakOf (namespaces pil.now) (C.values columns.now) (line_of_item item.now) line broken)) }
{
    let mut inters = RowValues::new(alloc, pil)?;
    Ok(check_identity(pil, columns, line, item, &mut inters))
}

/// Checks an identity, which has this number, as `check_rows` does. The values of each row are put into
/// `inters`, so that it takes no memory.
pub fn check_identity<C: Columns>(
    pil: &Pil,
    columns: &C,
    line: u32,
    item: &Item,
    inters: &mut RowValues,
) -> Option<Broken>
    requires sound { IsSound (namespaces pil.now) }
    requires fits { Fits (namespaces pil.now) (C.values columns.now) }
    requires made { IsMadeOf (namespaces pil.now) inters.old }
    requires identity { IsIdentityOf (namespaces pil.now) (line_of_item item.now) }
    ensures made { IsMadeOf (namespaces pil.now) inters.new }
    ensures found { MatchOption result (Holds (namespaces pil.now) (C.values columns.now) (line_of_item item.now)) (λ broken. IsBreakOf (namespaces pil.now) (C.values columns.now) (line_of_item item.now) line broken) }
{
    match item {
        Item::Identity { space, left, right } => {
            match first_unequal(pil, columns, *space, left, right, inters) {
                Some(spot) => Some(Broken::At {
                    line,
                    instance: spot.instance,
                    row: spot.row,
                }),
                None => None,
            }
        }
        _ => None,
    }
}

/// Checks an identity, which is the line with this number, at the rows of one instance: None exactly
/// where its sides are equal at each of them, else the least row at which they differ.
pub fn check_table<C: Columns>(
    alloc: Global,
    pil: &Pil,
    columns: &C,
    line: u32,
    instance: u32,
) -> Result<Option<Broken>, AllocError>
    requires sound { IsSound (namespaces pil.now) }
    requires fits { Fits (namespaces pil.now) (C.values columns.now) }
    requires first { 1 ≤ line }
    requires identity { IsIdentity (item_at (lines (namespaces pil.now)) (line - 1)) }
    requires inside { line ≤ length (lines (namespaces pil.now)) }
    requires instance { instance < (C.values columns.now).instances (space_of (item_at (lines (namespaces pil.now)) (line - 1))) }
    ensures { IfOk result (λ found. MatchOption found (HoldsIn (namespaces pil.now) (C.values columns.now) instance (item_at (lines (namespaces pil.now)) (line - 1))) (λ broken. IsBreakIn (namespaces pil.now) (C.values columns.now) instance (item_at (lines (namespaces pil.now)) (line - 1)) line broken)) }
{
    match pil.line(line) {
        Some(item) => check_item_in(alloc, pil, columns, line, item, instance),
        None => Ok(None),
    }
}

/// Checks an identity, which has this number, at the rows of one instance.
fn check_item_in<C: Columns>(
    alloc: Global,
    pil: &Pil,
    columns: &C,
    line: u32,
    item: &Item,
    instance: u32,
) -> Result<Option<Broken>, AllocError>
    requires sound { IsSound (namespaces pil.now) }
    requires fits { Fits (namespaces pil.now) (C.values columns.now) }
    requires identity { IsIdentityOf (namespaces pil.now) (line_of_item item.now) }
    requires instance { instance < (C.values columns.now).instances (space_of (line_of_item item.now)) }
    ensures { IfOk result (λ found. MatchOption found (HoldsIn (namespaces pil.now) (C.values columns.now) instance (line_of_item item.now)) (λ broken. IsBreakIn (namespaces pil.now) (C.values columns.now) instance (line_of_item item.now) line broken)) }
{
    match item {
        Item::Identity { space, left, right } => {
            let mut inters = RowValues::new(alloc, pil)?;
            match first_unequal_row(pil, columns, *space, left, right, instance, &mut inters) {
                Some(row) => Ok(Some(Broken::At {
                    line,
                    instance,
                    row,
                })),
                None => Ok(None),
            }
        }
        _ => Ok(None),
    }
}
