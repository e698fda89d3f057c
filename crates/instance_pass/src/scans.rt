//! The first row of a block at which a check fails.
ghost use Rattle.std.specs.Prelude.{◌≡◌, ◌<◌, ◌≤◌, ◌↔◌, ◌∷◌, [], true, length, map, slice_index, slice_index_or, IsTrue, IfOk, MatchOption};
ghost use Rattle.pil_ast.specs.Holds.{times};
ghost use Rattle.pil_program.specs.Blocks.{at_lane};
ghost use Rattle.instance_pass.specs.Senders.{IsSenderIn, StandsIn};
ghost use Rattle.instance_pass.specs.Checks.{Asks, IsCheckIn, HoldsBelow, FailsAt};

use crate::checks::Check;
use crate::senders::{Sender, value_at};
use crate::tables::{Table, beside, next_code};
use pil_program::Block;
use std::alloc::{AllocError, Global};

/// The first row at which two blocks differ.
#[inline]
fn first_unequal(a: &Block, b: &Block, count: usize) -> Option<usize>
    requires { count ≤ 64 }
    ensures { MatchOption result (HoldsBelow (λ j. slice_index a.now.values j ≡ slice_index b.now.values j) count) (λ lane. FailsAt (λ j. slice_index a.now.values j ≡ slice_index b.now.values j) count lane) }
{
    for lane in 0..count {
        if a.values[lane].value() != b.values[lane].value() {
            return Some(lane);
        }
    }
    None
}

/// The code of the tuple of a row.
#[inline]
fn code_at(sender: &Sender, blocks: &[Block], lane: usize) -> u64
    requires inside { IsSenderIn (length blocks.now) sender.now }
    requires lane { lane < 64 }
{
    let mut code = 0;
    for step in sender.terms.as_slice() {
        code = next_code(code, value_at(blocks, *step, lane));
    }
    code
}

/// Whether the tuple of a row is this one.
#[inline]
fn is_tuple(sender: &Sender, tuple: &[u64], blocks: &[Block], lane: usize) -> bool
    requires inside { IsSenderIn (length blocks.now) sender.now }
    requires lane { lane < 64 }
    ensures { result ≡ true → tuple.now ≡ map (at_lane blocks.now lane) sender.now.terms }
{
    let terms = sender.terms.as_slice();
    if tuple.len() != terms.len() {
        return false;
    }
    for place in 0..terms.len() {
        if tuple[place] != value_at(blocks, terms[place], lane) {
            return false;
        }
    }
    true
}

/// Whether the tuple of a row is found at once in the table under a code.
#[inline]
fn is_coded(sender: &Sender, table: &Table, blocks: &[Block], lane: usize, code: u64) -> bool
    requires inside { IsSenderIn (length blocks.now) sender.now }
    requires lane { lane < 64 }
    ensures { result ≡ true → StandsIn table.now sender.now (at_lane blocks.now lane) }
{
    match table.likely(code) {
        Some(tuple) => is_tuple(sender, tuple, blocks, lane),
        None => false,
    }
}

/// Whether the tuple of a row is found at once in the table.
#[inline]
fn is_likely(sender: &Sender, table: &Table, blocks: &[Block], lane: usize) -> bool
    requires inside { IsSenderIn (length blocks.now) sender.now }
    requires lane { lane < 64 }
    ensures { result ≡ true → StandsIn table.now sender.now (at_lane blocks.now lane) }
{
    let code = code_at(sender, blocks, lane);
    is_coded(sender, table, blocks, lane, code)
        || is_coded(sender, table, blocks, lane, beside(code))
}

/// Whether the tuple of a row is known at once to stand in the table.
#[inline]
fn is_covered(sender: &Sender, table: &Table, blocks: &[Block], lane: usize) -> bool
    requires inside { IsSenderIn (length blocks.now) sender.now }
    requires lane { lane < 64 }
    ensures { result ≡ true → StandsIn table.now sender.now (at_lane blocks.now lane) }
{
    match sender.terms.as_slice() {
        [only] => table.covers(value_at(blocks, *only, lane)),
        _ => is_likely(sender, table, blocks, lane),
    }
}

/// Whether the tuple of a row stands in the table, or the row isn't selected.
#[inline]
fn stands_in(
    alloc: Global,
    sender: &Sender,
    table: &Table,
    blocks: &[Block],
    lane: usize,
) -> Result<bool, AllocError>
    requires inside { IsSenderIn (length blocks.now) sender.now }
    requires lane { lane < 64 }
    ensures { IfOk result (λ stands. IsTrue stands ↔ StandsIn table.now sender.now (at_lane blocks.now lane)) }
{
    if is_covered(sender, table, blocks, lane) || !sender.selects(blocks, lane) {
        return Ok(true);
    }
    let mut tuple = Vec::new(alloc);
    sender.tuple(blocks, lane, &mut tuple)?;
    Ok(table.has(tuple.as_slice()))
}

/// The first row of a block whose tuple doesn't stand in the table.
fn first_missing(
    alloc: Global,
    sender: &Sender,
    table: &Table,
    blocks: &[Block],
    count: usize,
) -> Result<Option<usize>, AllocError>
    requires inside { IsSenderIn (length blocks.now) sender.now }
    requires count { count ≤ 64 }
    ensures { IfOk result (λ found. MatchOption found (HoldsBelow (λ j. StandsIn table.now sender.now (at_lane blocks.now j)) count) (λ lane. FailsAt (λ j. StandsIn table.now sender.now (at_lane blocks.now j)) count lane)) }
{
    for lane in 0..count {
        if !stands_in(alloc, sender, table, blocks, lane)? {
            return Ok(Some(lane));
        }
    }
    Ok(None)
}

/// The first row of a block of a namespace at which a check fails.
#[inline]
pub fn first_failing(
    alloc: Global,
    check: &Check,
    tables: &[Table],
    space: u32,
    blocks: &[Block],
    count: usize,
) -> Result<Option<usize>, AllocError>
    requires check { IsCheckIn (length tables.now) space (length blocks.now) check.now }
    requires count { count ≤ 64 }
    ensures { IfOk result (λ found. MatchOption found (HoldsBelow (λ j. Asks tables.now space check.now (at_lane blocks.now j)) count) (λ lane. FailsAt (λ j. Asks tables.now space check.now (at_lane blocks.now j)) count lane)) }
{
    match check {
        Check::Equal {
            space: home,
            left,
            right,
        } => {
            if *home == space {
                Ok(first_unequal(&blocks[*left], &blocks[*right], count))
            } else {
                Ok(None)
            }
        }
        Check::Among { left, table } => {
            if left.space == space {
                first_missing(alloc, left, &tables[*table], blocks, count)
            } else {
                Ok(None)
            }
        }
        Check::Nothing => Ok(None),
    }
}
