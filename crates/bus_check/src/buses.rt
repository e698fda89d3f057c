//! The check of an `is`.
ghost use Rattle.std.specs.Prelude.{◌≡◌, map, All, IfOk, MatchOption};
ghost use Rattle.pil_ast.specs.Tree.{tuples as list_of, namespaces};
ghost use Rattle.pil_ast.specs.Term.{bus};
ghost use Rattle.pil_ast.specs.Columns.{Fits};
ghost use Rattle.pil_ast.specs.Sound.{IsSound};
ghost use Rattle.pil_ast.specs.Filled.{IsMadeOf};
ghost use Rattle.pil_ast.specs.Holds.{AsOften, Holds, all_sent, times};
ghost use Rattle.row_check.specs.Breaks.{IsBreakOf};
ghost use Rattle.row_check.specs.declared.broken.Broken.TheVariants.{Counts};
ghost use Rattle.bus_check.specs.Bus.{IsListOf, IsOrdered, DiffersBy};

use crate::rows::push_lists;
use crate::tuples::TupleList;
use gold::Sequence;
use pil_ast::{Columns, List, Pil, RowValues};
use row_check::Broken;
use std::alloc::{AllocError, Global};

/// The tuples of the selected rows of a sum of lists, over all instances, in order.
fn ordered_side<C: Columns>(
    alloc: Global,
    pil: &Pil,
    columns: &C,
    lists: &[List],
    inters: &mut RowValues,
) -> Result<TupleList, AllocError>
    requires sound { IsSound (namespaces pil.now) }
    requires fits { Fits (namespaces pil.now) (C.values columns.now) }
    requires made { IsMadeOf (namespaces pil.now) inters.old }
    requires lists { All (IsListOf (namespaces pil.now)) (map list_of lists.now) }
    ensures made { IsMadeOf (namespaces pil.now) inters.new }
    ensures ordered { IfOk result (λ side. IsOrdered (all_sent (namespaces pil.now) (C.values columns.now) (map list_of lists.now)) side) }
{
    let mut side = TupleList::new(alloc);
    push_lists(alloc, pil, columns, lists, inters, &mut side)?;
    side.sort();
    Ok(side)
}

/// The answer that a line is broken by a tuple, with its counts on both sides.
fn unequal_counts(
    alloc: Global,
    line: u32,
    tuple: &[u64],
    left: &TupleList,
    right: &TupleList,
) -> Result<Broken, AllocError>
    ensures { IfOk result (λ broken. broken ≡ Counts line tuple.now (times tuple.now left.now) (times tuple.now right.now)) }
{
    let left = left.count(tuple);
    let right = right.count(tuple);
    let tuple = Sequence::from_vec(Vec::from_slice(alloc, tuple)?);
    Ok(Broken::Counts {
        line,
        tuple,
        left,
        right,
    })
}

/// The least tuple that the sides of an `is`, which has this number, don't have equally often.
pub fn first_difference(
    alloc: Global,
    line: u32,
    left: TupleList,
    right: TupleList,
) -> Result<Option<Broken>, AllocError>
    ensures { IfOk result (λ found. MatchOption found (AsOften left right) (λ broken. DiffersBy line left right broken)) }
{
    let mut left = left;
    let mut right = right;
    left.sort();
    right.sort();
    match left.difference(&right) {
        None => Ok(None),
        Some(tuple) => {
            let broken = unequal_counts(alloc, line, tuple, &left, &right)?;
            Ok(Some(broken))
        }
    }
}

/// Checks an `is` between two sums of lists, which has this number.
pub fn check_is<C: Columns>(
    alloc: Global,
    pil: &Pil,
    columns: &C,
    line: u32,
    lefts: &[List],
    rights: &[List],
    inters: &mut RowValues,
) -> Result<Option<Broken>, AllocError>
    requires sound { IsSound (namespaces pil.now) }
    requires fits { Fits (namespaces pil.now) (C.values columns.now) }
    requires made { IsMadeOf (namespaces pil.now) inters.old }
    requires lefts { All (IsListOf (namespaces pil.now)) (map list_of lefts.now) }
    requires rights { All (IsListOf (namespaces pil.now)) (map list_of rights.now) }
    ensures made { IsMadeOf (namespaces pil.now) inters.new }
    ensures found { IfOk result (λ found. MatchOption found (Holds (namespaces pil.now) (C.values columns.now) (bus (map list_of lefts.now) (map list_of rights.now))) (λ broken. IsBreakOf (namespaces pil.now) (C.values columns.now) (bus (map list_of lefts.now) (map list_of rights.now)) line broken)) }
{
    let left = ordered_side(alloc, pil, columns, lefts, inters)?;
    let right = ordered_side(alloc, pil, columns, rights, inters)?;
    match left.difference(&right) {
        None => Ok(None),
        Some(tuple) => {
            let broken = unequal_counts(alloc, line, tuple, &left, &right)?;
            Ok(Some(broken))
        }
    }
}
