//! The comparison of the sides of an `is`.
ghost use Rattle.std.specs.Prelude.{◌≡◌, ◌+◌, ◌-◌, ◌<◌, ◌≤◌, ◌^◌, length, IfOk, OnOk, MatchOption};
ghost use Rattle.pil_ast.specs.Tree.{namespaces};
ghost use Rattle.pil_ast.specs.Term.{item_at};
ghost use Rattle.pil_ast.specs.Columns.{Columns as Values};
ghost use Rattle.pil_ast.specs.Sound.{IsSound};
ghost use Rattle.pil_ast.specs.Holds.{AsOften, lines};
ghost use Rattle.row_check.specs.Breaks.{IsBreakOf};
ghost use Rattle.bus_check.specs.Bus.{DiffersBy};
ghost use Rattle.pil_checker.specs.Plans.{IsPlanOf};
ghost use Rattle.pil_checker.specs.Standing.{side_of, GiveBefore, HaveFrom, AgreesIfBus};

use crate::lines::Span;
use crate::plans::Plan;
use bus_check::{TupleList, first_difference};
use instance_pass::{Check, Part};
use pil_ast::Pil;
use row_check::Broken;
use std::alloc::{AllocError, Global};
use std::mem;

/// The tuples of a part, which then has none.
fn given(alloc: Global, part: &mut Part) -> TupleList
    ensures tuples { result ≡ part.old.tuples }
    ensures sender { part.new.sender ≡ part.old.sender }
{
    mem::replace(&mut part.tuples, TupleList::new(alloc))
}

/// The tuples of the parts from one number on, before another. These parts then have none.
fn side(
    alloc: Global,
    parts: &mut Vec<Part>,
    first: usize,
    end: usize,
) -> Result<TupleList, AllocError>
    requires low { first ≤ end }
    requires high { end ≤ length parts.old.items }
    ensures tuples { IfOk result (λ tuples. tuples ≡ side_of parts.old.items first (end - first)) }
    ensures gives { OnOk result (GiveBefore end parts.old.items parts.new.items) }
{
    let mut tuples = TupleList::new(alloc);
    for number in first..end {
        tuples.append(alloc, given(alloc, &mut parts[number]))?;
    }
    Ok(tuples)
}

/// The least tuple that the sides of an `is`, which is the line with this number from 0, don't have
/// equally often. Its parts then have no tuples.
fn compare(
    alloc: Global,
    line: usize,
    parts: &mut Vec<Part>,
    span: &Span,
) -> Result<Option<Broken>, AllocError>
    requires few { line < 2 ^ 20 }
    requires first { span.now.first ≤ span.now.middle }
    requires middle { span.now.middle ≤ span.now.end }
    requires end { span.now.end ≤ length parts.old.items }
    ensures found { IfOk result (λ found. MatchOption found (AsOften (side_of parts.old.items span.now.first (span.now.middle - span.now.first)) (side_of parts.old.items span.now.middle (span.now.end - span.now.middle))) (λ broken. DiffersBy (line + 1) (side_of parts.old.items span.now.first (span.now.middle - span.now.first)) (side_of parts.old.items span.now.middle (span.now.end - span.now.middle)) broken)) }
    ensures gives { OnOk result (GiveBefore span.now.end parts.old.items parts.new.items) }
{
    let left = side(alloc, parts, span.first, span.middle)?;
    let right = side(alloc, parts, span.middle, span.end)?;
    first_difference(alloc, line as u32 + 1, left, right)
}

/// The least tuple that the sides of a line, if it is an `is`, don't have equally often. The line's
/// number is counted from 0. Its parts then have no tuples.
pub fn difference_of(
    alloc: Global,
    pil: &Pil,
    plan: &mut Plan,
    line: usize,
) -> Result<Option<Broken>, AllocError>
    requires sound { IsSound (namespaces pil.now) }
    requires planned { IsPlanOf (namespaces pil.now) plan.old }
    requires line { line < length (lines (namespaces pil.now)) }
    ensures found { IfOk result (λ found. (c : Values) → HaveFrom (namespaces pil.now) c plan.old line → MatchOption found (AgreesIfBus (namespaces pil.now) c (item_at (lines (namespaces pil.now)) line)) (λ broken. IsBreakOf (namespaces pil.now) c (item_at (lines (namespaces pil.now)) line) (line + 1) broken)) }
    ensures planned { OnOk result (IsPlanOf (namespaces pil.now) plan.new) }
    ensures rest { OnOk result ((c : Values) → HaveFrom (namespaces pil.now) c plan.old line → HaveFrom (namespaces pil.now) c plan.new (line + 1)) }
{
    let span = plan.spans[line];
    match &plan.checks[line] {
        Check::Nothing => compare(alloc, line, &mut plan.parts, &span),
        _ => Ok(None),
    }
}
