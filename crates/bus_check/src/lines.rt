//! The check of an `in` or an `is`, and of all lines.
ghost use Rattle.std.specs.Prelude.{◌≡◌, ◌≤◌, ◌-◌, ◌↔◌, Some, length, slice_get, IsTrue, IfOk, MatchOption};
ghost use Rattle.pil_ast.specs.Tree.{line as line_of_item, namespaces};
ghost use Rattle.pil_ast.specs.Term.{item_at};
ghost use Rattle.pil_ast.specs.Columns.{Fits};
ghost use Rattle.pil_ast.specs.Sound.{IsSound};
ghost use Rattle.pil_ast.specs.Filled.{IsMadeOf};
ghost use Rattle.pil_ast.specs.Holds.{Holds, AllHold, lines};
ghost use Rattle.row_check.specs.Breaks.{IsBreak, IsBreakOf, IsIdentity, IsFirstBroken};
ghost use Rattle.bus_check.specs.Bus.{IsBus, IsBusOf};

use crate::buses::check_is;
use crate::lookups::check_in;
use pil_ast::{Columns, Item, Pil, RowValues};
use pil_lines::{line_at, line_places};
use row_check::{Broken, check_identity};
use std::alloc::{AllocError, Global};

/// Checks an `in` or an `is`, which is the line with this number: None exactly where it holds. Else the
/// answer is the least row on the left of an `in`, by instance and then by row, whose tuple isn't on the
/// right; or the least tuple that the sides of an `is` don't have equally often, compared number by
/// number, with both counts (docs/PIL.md, "The first broken line").
pub fn check_bus<C: Columns>(
    alloc: Global,
    pil: &Pil,
    columns: &C,
    line: u32,
) -> Result<Option<Broken>, AllocError>
    requires sound { IsSound (namespaces pil.now) }
    requires fits { Fits (namespaces pil.now) (C.values columns.now) }
    requires first { 1 ≤ line }
    requires bus { IsBus (item_at (lines (namespaces pil.now)) (line - 1)) }
    requires inside { line ≤ length (lines (namespaces pil.now)) }
    ensures { IfOk result (λ found. MatchOption found (Holds (namespaces pil.now) (C.values columns.now) (item_at (lines (namespaces pil.now)) (line - 1))) (λ broken. IsBreak (namespaces pil.now) (C.values columns.now) line broken)) }
{
    match pil.line(line) {
        Some(item) => check_alone(alloc, pil, columns, line, item),
        None => Ok(None),
    }
}

/// Checks an `in` or an `is`, which has this number, in room of its own.
fn check_alone<C: Columns>(
    alloc: Global,
    pil: &Pil,
    columns: &C,
    line: u32,
    item: &Item,
) -> Result<Option<Broken>, AllocError>
    requires sound { IsSound (namespaces pil.now) }
    requires fits { Fits (namespaces pil.now) (C.values columns.now) }
    requires bus { IsBusOf (namespaces pil.now) (line_of_item item.now) }
    ensures { IfOk result (λ found. MatchOption found (Holds (namespaces pil.now) (C.values columns.now) (line_of_item item.now)) (λ broken. IsBreakOf (namespaces pil.now) (C.values columns.now) (line_of_item item.now) line broken)) }
{
    let mut inters = RowValues::new(alloc, pil)?;
    check_item(alloc, pil, columns, line, item, &mut inters)
}

/// Checks an `in` or an `is`, which has this number.
fn check_item<C: Columns>(
    alloc: Global,
    pil: &Pil,
    columns: &C,
    line: u32,
    item: &Item,
    inters: &mut RowValues,
) -> Result<Option<Broken>, AllocError>
    requires sound { IsSound (namespaces pil.now) }
    requires fits { Fits (namespaces pil.now) (C.values columns.now) }
    requires made { IsMadeOf (namespaces pil.now) inters.old }
    requires bus { IsBusOf (namespaces pil.now) (line_of_item item.now) }
    ensures made { IsMadeOf (namespaces pil.now) inters.new }
    ensures found { IfOk result (λ found. MatchOption found (Holds (namespaces pil.now) (C.values columns.now) (line_of_item item.now)) (λ broken. IsBreakOf (namespaces pil.now) (C.values columns.now) (line_of_item item.now) line broken)) }
{
    match item {
        Item::Lookup { left, right } => check_in(alloc, pil, columns, line, left, right, inters),
        Item::Bus { left, right } => {
            let left = left.as_slice();
            check_is(alloc, pil, columns, line, left, right.as_slice(), inters)
        }
        _ => Ok(None),
    }
}

/// Whether an item is an identity.
fn is_identity(item: &Item) -> bool
    ensures { IsTrue result ↔ IsIdentity (line_of_item item.now) }
{
    matches!(item, Item::Identity { .. })
}

/// Checks a line, which has this number.
fn check_line<C: Columns>(
    alloc: Global,
    pil: &Pil,
    columns: &C,
    line: u32,
    item: &Item,
    inters: &mut RowValues,
) -> Result<Option<Broken>, AllocError>
    requires sound { IsSound (namespaces pil.now) }
    requires fits { Fits (namespaces pil.now) (C.values columns.now) }
    requires made { IsMadeOf (namespaces pil.now) inters.old }
    requires there { slice_get (lines (namespaces pil.now)) (line - 1) ≡ Some (line_of_item item.now) }
    ensures made { IsMadeOf (namespaces pil.now) inters.new }
    ensures found { IfOk result (λ found. MatchOption found (Holds (namespaces pil.now) (C.values columns.now) (item_at (lines (namespaces pil.now)) (line - 1))) (λ broken. IsBreak (namespaces pil.now) (C.values columns.now) line broken)) }
{
    if is_identity(item) {
        Ok(check_identity(pil, columns, line, item, inters))
    } else {
        check_item(alloc, pil, columns, line, item, inters)
    }
}

/// Checks all lines in order of the text: None exactly where each holds, else where the first broken
/// one is broken (docs/PIL.md, "The first broken line").
pub fn first_broken<C: Columns>(
    alloc: Global,
    pil: &Pil,
    columns: &C,
) -> Result<Option<Broken>, AllocError>
    requires sound { IsSound (namespaces pil.now) }
    requires fits { Fits (namespaces pil.now) (C.values columns.now) }
    ensures { IfOk result (λ found. MatchOption found (AllHold (namespaces pil.now) (C.values columns.now)) (λ broken. IsFirstBroken (namespaces pil.now) (C.values columns.now) broken)) }
{
    let places = line_places(alloc, pil)?;
    let mut inters = RowValues::new(alloc, pil)?;
    for before in 0..pil.lines() {
        let item = line_at(pil, &places, before as usize);
        match check_line(alloc, pil, columns, before + 1, item, &mut inters)? {
            Some(broken) => return Ok(Some(broken)),
            None => {}
        }
    }
    Ok(None)
}
