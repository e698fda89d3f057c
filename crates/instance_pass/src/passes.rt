//! One pass over the rows of an instance.
ghost use Rattle.std.specs.Prelude.{◌≡◌, ◌<◌, ◌≤◌, ℕ, List, Some, length, slice_get, flat_map, All, IfOk, OnOk, MatchOption};
ghost use Rattle.std.specs.List.{range_with_len};
ghost use Rattle.pil_ast.specs.Term.{Namespace};
ghost use Rattle.pil_ast.specs.Columns.{Columns as Values};
ghost use Rattle.pil_program.specs.declared.nodes.Node.{Node as NodeOf};
ghost use Rattle.pil_program.specs.Program.{IsProgram};
ghost use Rattle.pil_program.specs.Blocks.{at_lane};
ghost use Rattle.instance_pass.specs.declared.checks.Check.{Check as CheckOf};
ghost use Rattle.instance_pass.specs.Senders.{sent_by};
ghost use Rattle.instance_pass.specs.Checks.{IsCheckIn};
ghost use Rattle.instance_pass.specs.Parts.{IsPartIn, Takes};
ghost use Rattle.instance_pass.specs.Passes.{AllMet, FailsLeast, AsksNth, Says, IsSameInstance, AreChecksOf, AreTabled, TakesRows, AtEach};

use crate::checks::Check;
use crate::parts::Part;
use crate::scans::first_failing;
use crate::tables::Table;
use pil_ast::Columns;
use pil_program::{Block, InstanceColumns, LANES, Node, Stretch, run};
use std::alloc::{AllocError, Global};

/// A check by number, and a row at which it fails.
#[derive(Clone, Copy, Debug)]
pub struct Found {
    pub check: usize,
    pub row: usize,
}

/// An instance of a namespace, and how many rows it has.
#[derive(Clone, Copy)]
pub struct Place {
    pub space: u32,
    pub instance: u32,
    pub rows: usize,
}

/// What is asked of each row of a namespace: the steps of its program, and the first `limit` checks.
#[derive(Drop)]
pub struct Asked<'a> {
    pub nodes: &'a [Node],
    pub checks: &'a [Check],
    pub limit: usize,
    pub tables: &'a [Table],
}

/// The first check that fails at a row of a block of a namespace, and its first such row there.
fn scan(
    alloc: Global,
    asked: &Asked,
    space: u32,
    limit: usize,
    blocks: &[Block],
    count: usize,
) -> Result<Option<Found>, AllocError>
    requires limit { limit ≤ length asked.now.checks.now }
    requires checks { (k : ℕ) (check : CheckOf) → k < limit → slice_get asked.now.checks.now k ≡ Some check → IsCheckIn (length asked.now.tables.now) space (length blocks.now) check }
    requires count { count ≤ 64 }
    ensures { IfOk result (λ found. MatchOption found (AllMet (λ k j. AsksNth asked.now.tables.now space asked.now.checks.now k (at_lane blocks.now j)) limit count) (λ f. FailsLeast (λ k j. AsksNth asked.now.tables.now space asked.now.checks.now k (at_lane blocks.now j)) limit count f.check f.row)) }
{
    for check in 0..limit {
        match first_failing(
            alloc,
            &asked.checks[check],
            asked.tables,
            space,
            blocks,
            count,
        )? {
            Some(row) => return Ok(Some(Found { check, row })),
            None => {}
        }
    }
    Ok(None)
}

/// Lets each part take what the first rows of a block of a namespace send.
fn take_parts(
    alloc: Global,
    parts: &mut [Part],
    space: u32,
    blocks: &[Block],
    count: usize,
) -> Result<(), AllocError>
    requires parts { All (IsPartIn space (length blocks.now)) parts.old }
    requires count { count ≤ 64 }
    ensures { OnOk result (AtEach (λ p q. Takes space (flat_map (λ j. sent_by (at_lane blocks.now j) p.sender) (range_with_len 0 count)) p q) parts.old parts.new) }
{
    for number in 0..parts.len() {
        parts[number].take(alloc, space, blocks, count)?;
    }
    Ok(())
}

/// The first of the lines that are asked that fails in an instance, and the first row at which it does;
/// and each part takes what the instance sends. Each row is looked at once.
pub fn pass<C: InstanceColumns>(
    alloc: Global,
    columns: &C,
    place: &Place,
    asked: &Asked,
    parts: &mut [Part],
    blocks: &mut [Block],
) -> Result<Option<Found>, AllocError>
    requires space { place.now.space < (C.values columns.now).spaces }
    requires instance { place.now.instance < (C.values columns.now).instances place.now.space }
    requires rows { place.now.rows ≡ (C.values columns.now).rows place.now.space }
    requires program { IsProgram ((C.values columns.now).width place.now.space) asked.now.nodes.now }
    requires limit { asked.now.limit ≤ length asked.now.checks.now }
    requires checks { (k : ℕ) (check : CheckOf) → slice_get asked.now.checks.now k ≡ Some check → IsCheckIn (length asked.now.tables.now) place.now.space (length blocks.old) check }
    requires parts { All (IsPartIn place.now.space (length blocks.old)) parts.old }
    requires room { length asked.now.nodes.now ≤ length blocks.old }
    ensures found { IfOk result (λ found. (ns : List Namespace) (c : Values) (nodes : ℕ → List NodeOf) → IsSameInstance (C.values columns.now) c place.now.space place.now.instance → nodes place.now.space ≡ asked.now.nodes.now → AreChecksOf ns nodes (length asked.now.tables.now) asked.now.checks.now → AreTabled ns c asked.now.tables.now asked.now.checks.now → MatchOption found (AllMet (Says ns c place.now.space place.now.instance) asked.now.limit place.now.rows) (λ f. FailsLeast (Says ns c place.now.space place.now.instance) asked.now.limit place.now.rows f.check f.row)) }
    ensures inside { IfOk result (λ found. MatchOption found (Unit {0}) (λ f. (f.check < asked.now.limit) × (f.row < place.now.rows))) }
    ensures parts { OnOk result ((ns : List Namespace) (c : Values) → IsSameInstance (C.values columns.now) c place.now.space place.now.instance → AtEach (TakesRows ns c place.now.space place.now.instance place.now.rows asked.now.nodes.now) parts.old parts.new) }
    ensures room { length blocks.new ≡ length blocks.old }
{
    let mut found = None;
    let mut limit = asked.limit;
    let mut base = 0;
    while base < place.rows {
        let count = LANES.min(place.rows - base);
        let stretch = Stretch {
            space: place.space,
            instance: place.instance,
            base,
            count,
        };
        run(columns, &stretch, asked.nodes, blocks);
        match scan(alloc, asked, place.space, limit, blocks, count)? {
            Some(f) => {
                limit = f.check;
                found = Some(Found {
                    check: f.check,
                    row: base + f.row,
                });
            }
            None => {}
        }
        take_parts(alloc, parts, place.space, blocks, count)?;
        base += count;
    }
    Ok(found)
}
