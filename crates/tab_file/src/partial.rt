//! An instance of which a part has come.
ghost use Rattle.std.specs.Prelude.{◌≡◌, ◌≢◌, ℕ, ◌<◌, ◌≤◌, ◌+◌, ◌-◌, ◌*◌, ◌/◌, ◌^◌, ◌++◌, ◌⊎◌, [], List, length, take, drop, replicate, IfOk, OnOk, MatchOption, MatchResult, MatchBool, None, Some};
ghost use Rattle.std.specs.Int.{w32, w64};
ghost use Rattle.gold.specs.Field.{p};
ghost use Rattle.gold.specs.Shapes.{Place};
ghost use Rattle.tab_file.specs.declared.fault.TabKind.TheVariants.{Short};
ghost use Rattle.tab_file.specs.Items.{number_at, value_item, instance_items};
ghost use Rattle.tab_file.specs.Reading.{numbers_from};
ghost use Rattle.tab_file.specs.Steps.{Pass, Fail, table_at, instance_len};
ghost use Rattle.tab_file.specs.Parts.{place_of, head_item, Grows, Fails, Takes, Adds, Waits, IsWhole, SameInstance, IsTableAt, reach};

use crate::coming::Due;
use crate::fault::{TabErr, TabKind};
use gold::{AirShape, Column, Columns, Fe, Table};
use std::alloc::{AllocError, Global};
use std::mem;

/// How many numbers an instance begins with: its air, its own number, its columns and rows.
const HEADS: u32 = 4;

/// An instance of which a part has come.
#[derive(Drop)]
pub(crate) struct Partial {
    alloc: Global,
    due: Due,
    /// The air's number, where it has come.
    air: u32,
    /// How many of the four numbers that it begins with have passed.
    heads: u32,
    /// The columns that are whole.
    columns: Columns,
    /// The values of the next column that have passed.
    column: Column,
    /// The offset in the file after what has passed.
    at: u64,
    /// The bytes after it that have come, which aren't a whole item.
    part: Vec<u8>,
}

/// The most rows of a column for which memory is taken before they come.
const AHEAD: usize = 1 << 16;

/// A column for so many rows, of which none has come.
fn column_for(alloc: Global, rows: u32) -> Result<Column, AllocError>
    ensures { IfOk result (λ c. c ≡ []) }
{
    let values = Vec::with_capacity(alloc, AHEAD.min(rows as usize))?;
    Ok(Column::from_vec(values))
}

/// Moves bytes of a piece to a part until it has so many, and tells how many bytes were moved.
fn fill(part: &mut Vec<u8>, width: usize, piece: &[u8]) -> Result<usize, AllocError>
    ensures count { IfOk result (λ n. n ≤ length piece.now) }
    ensures moved { IfOk result (λ n. part.new.items ≡ part.old.items ++ take n piece.now) }
    ensures len { IfOk result (λ n. length part.new.items ≡ length part.old.items + n) }
    ensures all { IfOk result (λ n. length part.new.items < width → n ≡ length piece.now) }
    ensures most { IfOk result (λ n. length part.old.items ≤ width → length part.new.items ≤ width) }
{
    let count = width.saturating_sub(part.len()).min(piece.len());
    part.extend_from_slice(&piece[..count])?;
    Ok(count)
}

/// The number that bytes begin with.
fn number_in(bytes: &[u8]) -> u32
    requires { 4 ≤ length bytes.now }
    ensures { result ≡ number_at w32 bytes.now 0 }
{
    u32::from_le_bytes([bytes[0], bytes[1], bytes[2], bytes[3]])
}

/// The value at an offset, if it is below p.
#[inline]
fn value_in(bytes: &[u8], at: usize) -> Option<Fe>
    requires { at + 8 ≤ length bytes.now }
    ensures { MatchOption result (p ≤ number_at w64 bytes.now at) (λ v. (v ≡ number_at w64 bytes.now at) × (v < p)) }
{
    let rest = &bytes[at..];
    Fe::from_u64(u64::from_le_bytes([
        rest[0], rest[1], rest[2], rest[3], rest[4], rest[5], rest[6], rest[7],
    ]))
}

/// Adds so many values to a column, which stand at an offset of the file.
fn push_values(column: &mut Column, bytes: &[u8], count: usize, at: u64) -> Result<(), TabErr>
    requires room { at + length bytes.now < 2 ^ 64 }
    requires count { 8 * count ≤ length bytes.now }
    ensures len { IfOk result (λ _. length column.new ≡ length column.old + count) }
    ensures adds { (file more : List ℕ) → at ≤ length file → drop at file ≡ bytes.now ++ more → MatchResult result (λ _. Adds file at count column.old column.new) (λ e. Fails file at (replicate count value_item) e) }
{
    for i in 0..count {
        match value_in(bytes, 8 * i) {
            Some(value) => column.push(value)?,
            None => {
                return Err(TabErr {
                    kind: TabKind::NotCanonical,
                    at: at + 8 * i as u64,
                });
            }
        }
    }
    Ok(())
}

/// What is wrong with one of the four numbers that an instance begins with.
fn check_head(due: &Due, heads: u32, number: u32, at: u64) -> Result<(), TabErr>
    ensures right { MatchResult result (λ _. (head_item due.now.airs (place_of due.now) heads).wrong at number ≡ None) (λ e. ((head_item due.now.airs (place_of due.now) heads).wrong at number ≡ Some e) × (e.kind ≢ Short)) }
    ensures instance { MatchResult result (λ _. heads ≡ 1 → due.now.instance ≡ number) (λ e. Unit {0}) }
{
    let wanted = match heads {
        0 => {
            if number as u64 >= due.airs {
                return Err(TabErr {
                    kind: TabKind::BadAir,
                    at,
                });
            }
            due.number
        }
        1 => due.instance as u64,
        2 => due.form.columns as u64,
        _ => due.form.rows as u64,
    };
    if number as u64 == wanted {
        return Ok(());
    }
    match heads {
        0 => Err(TabErr {
            kind: TabKind::BadOrder,
            at,
        }),
        1 => Err(TabErr {
            kind: TabKind::BadOrder,
            at: at.saturating_sub(4),
        }),
        _ => Err(TabErr {
            kind: TabKind::BadShape,
            at,
        }),
    }
}

/// The air's number after one more of the four numbers, the first of which it is.
fn air_after(heads: u32, air: u32, number: u32) -> u32
    ensures first { heads ≡ 0 → result ≡ number }
    ensures later { 0 < heads → result ≡ air }
{
    if heads == 0 { number } else { air }
}

impl Partial {
    /// No instance, at an offset.
    pub(crate) fn none(alloc: Global, at: u64) -> Partial
        ensures at { result.at ≡ at }
        ensures part { result.part.items ≡ [] }
    {
        let form = AirShape {
            rows: 0,
            columns: 0,
            most: 0,
        };
        Partial {
            alloc,
            due: Due {
                airs: 0,
                number: 0,
                instance: 0,
                form,
            },
            air: 0,
            heads: 0,
            columns: Columns::new(alloc),
            column: Column::new(alloc),
            at,
            part: Vec::new(alloc),
        }
    }

    /// An instance that is to begin at an offset, of which nothing has come.
    pub(crate) fn new(alloc: Global, due: Due, at: u64) -> Result<Partial, AllocError>
        ensures due { IfOk result (λ g. g.due ≡ due) }
        ensures at { IfOk result (λ g. g.at ≡ at) }
        ensures part { IfOk result (λ g. g.part.items ≡ []) }
        ensures grows { IfOk result (λ g. (file rest : List ℕ) → at ≤ length file → drop at file ≡ rest → Grows file at due.airs (place_of due) g rest) }
    {
        Ok(Partial {
            alloc,
            due,
            air: 0,
            heads: 0,
            columns: Columns::new(alloc),
            column: column_for(alloc, due.form.rows)?,
            at,
            part: Vec::new(alloc),
        })
    }

    /// The offset in the file after what has passed.
    pub(crate) fn at(&self) -> u64
        ensures { result ≡ self.now.at }
    {
        self.at
    }

    /// The offset in the file after all that has come.
    pub(crate) fn reach(&self) -> u64
        requires { reach self.now < 2 ^ 64 }
        ensures { result ≡ reach self.now }
    {
        self.at + self.part.len() as u64
    }

    /// Whether all of it has come.
    pub(crate) fn is_whole(&self) -> bool
        ensures { MatchBool result (IsWhole self.now) (IsWhole self.now → ⊥) }
    {
        self.heads >= HEADS && self.columns.len() >= self.due.form.columns as usize
    }

    /// Takes the part, which is one of the four numbers that it begins with.
    fn take_head(&mut self) -> Result<(), TabErr>
        requires heads { self.old.heads < 4 }
        requires part { 4 ≤ length self.old.part.items }
        requires room { reach self.old < 2 ^ 64 }
        ensures heads { IfOk result (λ _. self.new.heads ≡ self.old.heads + 1) }
        ensures reach { IfOk result (λ _. reach self.new ≤ reach self.old) }
        ensures part { IfOk result (λ _. self.new.part.items ≡ []) }
        ensures takes { length self.old.part.items ≡ 4 → (file : List ℕ) (begin n : ℕ) (p : Place) (more : List ℕ) → Grows file begin n p self.old more → MatchResult result (λ _. Grows file begin n p self.new more) (λ e. Fails file begin (instance_items n p) e) }
    {
        let number = number_in(&self.part);
        check_head(&self.due, self.heads, number, self.at)?;
        self.air = air_after(self.heads, self.air, number);
        self.heads += 1;
        self.at += 4;
        self.part.clear();
        Ok(())
    }

    /// Takes what a piece has of the next of these numbers, and tells how many bytes these are.
    fn next_head(&mut self, piece: &[u8]) -> Result<usize, TabErr>
        requires heads { self.old.heads < 4 }
        requires room { reach self.old + length piece.now < 2 ^ 64 }
        ensures count { IfOk result (λ n. n ≤ length piece.now) }
        ensures reach { IfOk result (λ n. reach self.new + (length piece.now - n) ≤ reach self.old + length piece.now) }
        ensures heads { IfOk result (λ n. (self.new.heads ≡ self.old.heads + 1) ⊎ ((self.new.heads ≡ self.old.heads) × (n ≡ length piece.now) × (length self.new.part.items < 4))) }
        ensures takes { Takes self.old self.new piece.now result }
    {
        let done = fill(&mut self.part, 4, piece)?;
        if self.part.len() >= 4 {
            self.take_head()?;
        }
        Ok(done)
    }

    /// Takes what a piece has of the numbers that it begins with, and tells how many bytes these are.
    fn take_heads(&mut self, piece: &[u8]) -> Result<usize, TabErr>
        requires room { reach self.old + length piece.now < 2 ^ 64 }
        ensures count { IfOk result (λ n. n ≤ length piece.now) }
        ensures reach { IfOk result (λ n. reach self.new + (length piece.now - n) ≤ reach self.old + length piece.now) }
        ensures waits { IfOk result (λ n. self.new.heads < 4 → (n ≡ length piece.now) × (length self.new.part.items < 4)) }
        ensures takes { Takes self.old self.new piece.now result }
    {
        let mut done = 0;
        while self.heads < HEADS {
            let before = self.heads;
            done += self.next_head(&piece[done..])?;
            if self.heads == before {
                return Ok(done);
            }
        }
        Ok(done)
    }

    /// Takes the part, where it is not empty and the piece makes it a whole value. It tells how many bytes of the
    /// piece were taken.
    fn take_part(&mut self, piece: &[u8]) -> Result<usize, TabErr>
        requires heads { 4 ≤ self.old.heads }
        requires room { reach self.old + length piece.now < 2 ^ 64 }
        ensures count { IfOk result (λ n. n ≤ length piece.now) }
        ensures reach { IfOk result (λ n. reach self.new + (length piece.now - n) ≤ reach self.old + length piece.now) }
        ensures same { IfOk result (λ _. SameInstance self.old self.new) }
        ensures waits { IfOk result (λ n. 0 < length self.new.part.items → (n ≡ length piece.now) × (length self.new.part.items < 8)) }
        ensures takes { Takes self.old self.new piece.now result }
    {
        if self.part.is_empty() {
            return Ok(0);
        }
        let done = fill(&mut self.part, 8, piece)?;
        if self.part.len() >= 8 {
            push_values(&mut self.column, &self.part, 1, self.at)?;
            self.at += 8;
            self.part.clear();
        }
        Ok(done)
    }

    /// Takes the values of the next column that a piece has, and what follows them as a part, where the column isn't
    /// whole then. It tells how many bytes these are.
    fn take_whole(&mut self, piece: &[u8]) -> Result<usize, TabErr>
        requires heads { 4 ≤ self.old.heads }
        requires columns { length self.old.columns < self.old.due.form.columns }
        requires part { self.old.part.items ≡ [] }
        requires room { reach self.old + length piece.now < 2 ^ 64 }
        ensures count { IfOk result (λ n. n ≤ length piece.now) }
        ensures reach { IfOk result (λ n. reach self.new + (length piece.now - n) ≤ reach self.old + length piece.now) }
        ensures same { IfOk result (λ _. SameInstance self.old self.new) }
        ensures waits { IfOk result (λ n. length self.new.column < self.new.due.form.rows → (n ≡ length piece.now) × (length self.new.part.items < 8)) }
        ensures takes { Takes self.old self.new piece.now result }
    {
        let rows = self.due.form.rows as usize;
        let wanted = rows.saturating_sub(self.column.len());
        let count = (piece.len() / 8).min(wanted);
        let end = 8 * count;
        push_values(&mut self.column, &piece[..end], count, self.at)?;
        self.at += end as u64;
        if count < wanted {
            self.part.extend_from_slice(&piece[end..])?;
            return Ok(piece.len());
        }
        Ok(end)
    }

    /// Takes what a piece has of the next column, and tells how many bytes these are.
    fn take_column(&mut self, piece: &[u8]) -> Result<usize, TabErr>
        requires heads { 4 ≤ self.old.heads }
        requires columns { length self.old.columns < self.old.due.form.columns }
        requires room { reach self.old + length piece.now < 2 ^ 64 }
        ensures count { IfOk result (λ n. n ≤ length piece.now) }
        ensures reach { IfOk result (λ n. reach self.new + (length piece.now - n) ≤ reach self.old + length piece.now) }
        ensures same { IfOk result (λ _. SameInstance self.old self.new) }
        ensures waits { IfOk result (λ n. length self.new.column < self.new.due.form.rows → (n ≡ length piece.now) × (length self.new.part.items < 8)) }
        ensures takes { Takes self.old self.new piece.now result }
    {
        let done = self.take_part(piece)?;
        if !self.part.is_empty() {
            return Ok(done);
        }
        let more = self.take_whole(&piece[done..])?;
        Ok(done + more)
    }

    /// The next column is whole.
    fn end_column(&mut self) -> Result<(), AllocError>
        requires heads { 4 ≤ self.old.heads }
        requires columns { length self.old.columns < self.old.due.form.columns }
        requires rows { self.old.due.form.rows ≤ length self.old.column }
        ensures reach { OnOk result (reach self.new ≡ reach self.old) }
        ensures same { OnOk result ((self.new.due ≡ self.old.due) × (self.new.heads ≡ self.old.heads) × (length self.new.columns ≡ length self.old.columns + 1)) }
        ensures grows { OnOk result ((file : List ℕ) (begin n : ℕ) (p : Place) (more : List ℕ) → Grows file begin n p self.old more → Grows file begin n p self.new more) }
    {
        let next = column_for(self.alloc, self.due.form.rows)?;
        let column = mem::replace(&mut self.column, next);
        self.columns.push(column)?;
        Ok(())
    }

    /// Takes what a piece has of the values, and tells how many bytes these are.
    fn take_values(&mut self, piece: &[u8]) -> Result<usize, TabErr>
        requires heads { 4 ≤ self.old.heads }
        requires room { reach self.old + length piece.now < 2 ^ 64 }
        ensures count { IfOk result (λ n. n ≤ length piece.now) }
        ensures reach { IfOk result (λ n. reach self.new + (length piece.now - n) ≤ reach self.old + length piece.now) }
        ensures heads { IfOk result (λ _. self.new.heads ≡ self.old.heads) }
        ensures waits { IfOk result (λ n. length self.new.columns < self.new.due.form.columns → (n ≡ length piece.now) × (length self.new.column < self.new.due.form.rows) × (length self.new.part.items < 8)) }
        ensures takes { Takes self.old self.new piece.now result }
    {
        let mut done = 0;
        while self.columns.len() < self.due.form.columns as usize {
            done += self.take_column(&piece[done..])?;
            if self.column.len() < self.due.form.rows as usize {
                return Ok(done);
            }
            self.end_column()?;
        }
        Ok(done)
    }

    /// Takes what a piece has of the instance, and tells how many bytes these are.
    pub(crate) fn take(&mut self, piece: &[u8]) -> Result<usize, TabErr>
        requires room { reach self.old + length piece.now < 2 ^ 64 }
        ensures count { IfOk result (λ n. n ≤ length piece.now) }
        ensures reach { IfOk result (λ n. reach self.new + (length piece.now - n) ≤ reach self.old + length piece.now) }
        ensures waits { IfOk result (λ n. IsWhole self.new ⊎ (Waits self.new × (n ≡ length piece.now))) }
        ensures takes { Takes self.old self.new piece.now result }
    {
        let done = self.take_heads(piece)?;
        if self.heads < HEADS {
            return Ok(done);
        }
        let more = self.take_values(&piece[done..])?;
        Ok(done + more)
    }

    /// The instance, all of which has come. What is left is of no use.
    pub(crate) fn take_table(&mut self) -> Table
        requires { IsWhole self.old }
        ensures at { self.new.at ≡ self.old.at }
        ensures part { self.new.part.items ≡ [] }
        ensures table { (file : List ℕ) (begin n : ℕ) (p : Place) (more : List ℕ) → Grows file begin n p self.old more → IsTableAt file begin n p result self.old more }
    {
        let columns = mem::replace(&mut self.columns, Columns::new(self.alloc));
        self.part.clear();
        Table {
            air: self.air,
            instance: self.due.instance,
            columns,
        }
    }
}
