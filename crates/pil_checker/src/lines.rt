//! The lines of a text as checks and parts.
ghost use Rattle.std.specs.Prelude.{◌≡◌, ◌+◌, ◌≤◌, ℕ, length, map, All, IfOk, OnOk, MatchOption};
ghost use Rattle.pil_ast.specs.Tree.{term, tuples as list_of, line as line_of, namespaces};
ghost use Rattle.pil_ast.specs.Term.{identity, lookup};
ghost use Rattle.pil_ast.specs.Columns.{Fits};
ghost use Rattle.instance_pass.specs.Checks.{IsCheckOf, IsTabled};
ghost use Rattle.pil_checker.specs.Programs.{ArePrograms, IsPlacing, IsPlain, nodes_at};
ghost use Rattle.pil_checker.specs.Plans.{Extends, IsLineOf, IsSpanOf, HasTable, IsTableOf, HaveParts, AreIdle, AreKnown};

use crate::placing::{place_in, place_list};
use crate::rights::table_of;
use bus_check::TupleList;
use instance_pass::{Check, Part, Table};
use pil_ast::{Columns, Expr, Item, List, Pil};
use pil_program::{InstanceColumns, Program};
use std::alloc::{AllocError, Global};

/// The parts of an `is`, by number: those of its left side from `first` on, those of its right side
/// from `middle` on, up to `end`. Another line has none.
#[derive(Clone, Copy)]
pub struct Span {
    pub first: usize,
    pub middle: usize,
    pub end: usize,
}

/// The check of an identity.
fn place_identity(
    pil: &Pil,
    space: u32,
    left: &Expr,
    right: &Expr,
    programs: &mut Vec<Program>,
) -> Result<Check, AllocError>
    requires programs { ArePrograms (namespaces pil.now) programs.old.items }
    requires line { IsLineOf (namespaces pil.now) (identity space (term left.now) (term right.now)) }
    ensures placing { OnOk result (IsPlacing (namespaces pil.now) programs.old.items programs.new.items) }
    ensures check { IfOk result (λ check. (n : ℕ) → IsCheckOf (namespaces pil.now) (nodes_at programs.new.items) n check (identity space (term left.now) (term right.now))) }
{
    let left = place_in(pil, space, left, programs)?;
    let right = place_in(pil, space, right, programs)?;
    Ok(Check::Equal { space, left, right })
}

/// The check of an `in`. Its table is one that is known, or is put at the end.
fn place_lookup<C: InstanceColumns>(
    alloc: Global,
    pil: &Pil,
    columns: &C,
    left: &List,
    right: &List,
    known: Option<usize>,
    programs: &mut Vec<Program>,
    tables: &mut Vec<Table>,
) -> Result<Check, AllocError>
    requires fits { Fits (namespaces pil.now) (C.values columns.now) }
    requires programs { ArePrograms (namespaces pil.now) programs.old.items }
    requires line { IsLineOf (namespaces pil.now) (lookup (list_of left.now) (list_of right.now)) }
    requires known { MatchOption known (Unit {0}) (HasTable (namespaces pil.now) (C.values columns.now) tables.old.items (list_of right.now)) }
    ensures placing { OnOk result (IsPlacing (namespaces pil.now) programs.old.items programs.new.items) }
    ensures tables { OnOk result (Extends tables.old.items tables.new.items) }
    ensures check { IfOk result (λ check. IsCheckOf (namespaces pil.now) (nodes_at programs.new.items) (length tables.new.items) check (lookup (list_of left.now) (list_of right.now))) }
    ensures tabled { IfOk result (λ check. IsTabled (namespaces pil.now) (C.values columns.now) tables.new.items check (lookup (list_of left.now) (list_of right.now))) }
{
    let from = place_list(alloc, pil, left, programs)?;
    let table = table_for(alloc, pil, columns, right, known, programs, tables)?;
    Ok(Check::Among { left: from, table })
}

/// The table of a list by number: one that is known, or one that is put at the end.
fn table_for<C: InstanceColumns>(
    alloc: Global,
    pil: &Pil,
    columns: &C,
    right: &List,
    known: Option<usize>,
    programs: &mut Vec<Program>,
    tables: &mut Vec<Table>,
) -> Result<usize, AllocError>
    requires fits { Fits (namespaces pil.now) (C.values columns.now) }
    requires programs { ArePrograms (namespaces pil.now) programs.old.items }
    requires list { IsPlain (namespaces pil.now) (list_of right.now) }
    requires known { MatchOption known (Unit {0}) (HasTable (namespaces pil.now) (C.values columns.now) tables.old.items (list_of right.now)) }
    ensures placing { OnOk result (IsPlacing (namespaces pil.now) programs.old.items programs.new.items) }
    ensures tables { OnOk result (Extends tables.old.items tables.new.items) }
    ensures table { IfOk result (HasTable (namespaces pil.now) (C.values columns.now) tables.new.items (list_of right.now)) }
{
    match known {
        Some(number) => Ok(number),
        None => push_table(alloc, pil, columns, right, programs, tables),
    }
}

/// Puts the table of a list at the end, and says which it is.
fn push_table<C: InstanceColumns>(
    alloc: Global,
    pil: &Pil,
    columns: &C,
    right: &List,
    programs: &mut Vec<Program>,
    tables: &mut Vec<Table>,
) -> Result<usize, AllocError>
    requires fits { Fits (namespaces pil.now) (C.values columns.now) }
    requires programs { ArePrograms (namespaces pil.now) programs.old.items }
    requires list { IsPlain (namespaces pil.now) (list_of right.now) }
    ensures placing { OnOk result (IsPlacing (namespaces pil.now) programs.old.items programs.new.items) }
    ensures tables { OnOk result (Extends tables.old.items tables.new.items) }
    ensures table { IfOk result (HasTable (namespaces pil.now) (C.values columns.now) tables.new.items (list_of right.now)) }
{
    let to = place_list(alloc, pil, right, programs)?;
    let nodes = programs[to.space as usize].as_slice();
    let table = table_of(alloc, pil, columns, nodes, &to)?;
    let number = tables.len();
    tables.push(table)?;
    Ok(number)
}

/// The check of a line.
pub fn place_check<C: InstanceColumns>(
    alloc: Global,
    pil: &Pil,
    columns: &C,
    item: &Item,
    known: Option<usize>,
    programs: &mut Vec<Program>,
    tables: &mut Vec<Table>,
) -> Result<Check, AllocError>
    requires fits { Fits (namespaces pil.now) (C.values columns.now) }
    requires programs { ArePrograms (namespaces pil.now) programs.old.items }
    requires line { IsLineOf (namespaces pil.now) (line_of item.now) }
    requires known { MatchOption known (Unit {0}) (IsTableOf (namespaces pil.now) (C.values columns.now) tables.old.items (line_of item.now)) }
    ensures placing { OnOk result (IsPlacing (namespaces pil.now) programs.old.items programs.new.items) }
    ensures tables { OnOk result (Extends tables.old.items tables.new.items) }
    ensures check { IfOk result (λ check. IsCheckOf (namespaces pil.now) (nodes_at programs.new.items) (length tables.new.items) check (line_of item.now)) }
    ensures tabled { IfOk result (λ check. IsTabled (namespaces pil.now) (C.values columns.now) tables.new.items check (line_of item.now)) }
{
    match item {
        Item::Identity { space, left, right } => place_identity(pil, *space, left, right, programs),
        Item::Lookup { left, right } => {
            place_lookup(alloc, pil, columns, left, right, known, programs, tables)
        }
        _ => Ok(Check::Nothing),
    }
}

/// Puts a part for each of some lists at the end.
fn place_parts(
    alloc: Global,
    pil: &Pil,
    lists: &[List],
    programs: &mut Vec<Program>,
    parts: &mut Vec<Part>,
) -> Result<(), AllocError>
    requires programs { ArePrograms (namespaces pil.now) programs.old.items }
    requires lists { All (IsPlain (namespaces pil.now)) (map list_of lists.now) }
    requires known { AreKnown (namespaces pil.now) (nodes_at programs.old.items) parts.old.items }
    requires idle { AreIdle parts.old.items }
    ensures placing { OnOk result (IsPlacing (namespaces pil.now) programs.old.items programs.new.items) }
    ensures extends { OnOk result (Extends parts.old.items parts.new.items) }
    ensures long { OnOk result (length parts.new.items ≡ length parts.old.items + length lists.now) }
    ensures have { OnOk result (HaveParts (namespaces pil.now) (nodes_at programs.new.items) parts.new.items (length parts.old.items) (map list_of lists.now)) }
    ensures known { OnOk result (AreKnown (namespaces pil.now) (nodes_at programs.new.items) parts.new.items) }
    ensures idle { OnOk result (AreIdle parts.new.items) }
{
    for list in lists {
        let sender = place_list(alloc, pil, list, programs)?;
        parts.push(Part {
            sender,
            tuples: TupleList::new(alloc),
        })?;
    }
    Ok(())
}

/// The parts of a line.
pub fn place_span(
    alloc: Global,
    pil: &Pil,
    item: &Item,
    programs: &mut Vec<Program>,
    parts: &mut Vec<Part>,
) -> Result<Span, AllocError>
    requires programs { ArePrograms (namespaces pil.now) programs.old.items }
    requires line { IsLineOf (namespaces pil.now) (line_of item.now) }
    requires known { AreKnown (namespaces pil.now) (nodes_at programs.old.items) parts.old.items }
    requires idle { AreIdle parts.old.items }
    ensures placing { OnOk result (IsPlacing (namespaces pil.now) programs.old.items programs.new.items) }
    ensures extends { OnOk result (Extends parts.old.items parts.new.items) }
    ensures span { IfOk result (λ span. IsSpanOf (namespaces pil.now) (nodes_at programs.new.items) parts.new.items span (line_of item.now)) }
    ensures within { IfOk result (λ span. (length parts.old.items ≤ span.first) × (span.end ≤ length parts.new.items)) }
    ensures known { OnOk result (AreKnown (namespaces pil.now) (nodes_at programs.new.items) parts.new.items) }
    ensures idle { OnOk result (AreIdle parts.new.items) }
{
    let first = parts.len();
    match item {
        Item::Bus { left, right } => {
            place_parts(alloc, pil, left.as_slice(), programs, parts)?;
            let middle = parts.len();
            place_parts(alloc, pil, right.as_slice(), programs, parts)?;
            Ok(Span {
                first,
                middle,
                end: parts.len(),
            })
        }
        _ => Ok(Span {
            first,
            middle: first,
            end: first,
        }),
    }
}
