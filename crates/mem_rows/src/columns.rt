//! The columns of an instance, each made by itself.
ghost use Rattle.std.specs.Prelude.{◌≡◌, ◌-◌, ◌<◌, ◌≤◌, ◌%◌, ◌/◌, ◌^◌, ◌++◌, ◌∷◌, [], take, map, length, replicate, All, IfSome, IfOk, OnOk};
ghost use Rattle.std.specs.Option.{option_map_or};
ghost use Rattle.gold.specs.Field.{p, IsCanonical};
ghost use Rattle.run_rows.specs.Tables.{padded};
ghost use Rattle.mem_rows.specs.declared.access.Access.{Access as AnyAccess};
ghost use Rattle.mem_rows.specs.declared.columns.Step.{Step as AnyStep};
ghost use Rattle.step_rows.specs.Words.{low, high, one_if};
ghost use Rattle.mem_rows.specs.Rows.{gap};
ghost use Rattle.mem_rows.specs.Columns.{step_of, steps_behind, access_columns, value_columns, step_columns, access_before, value_before, columns_of};

use crate::Access;
use crate::access::END;
use gold::{Column, Columns};
use std::alloc::{AllocError, Global};

/// What an access has to do with the one before it.
#[derive(Clone, Copy, Debug)]
pub struct Step {
    /// Whether they have the same key.
    pub same: bool,
    /// The distance of their times at the same key, else of their keys, less 1.
    pub gap: u64,
}

fn fill(values: &mut Vec<u64>, rows: usize) -> Result<(), AllocError>
    requires { length values.old.items ≤ rows }
    ensures { OnOk result (values.new.items ≡ padded rows values.old.items) }
{
    values.resize(rows, 0)
}

// The column of the values, with zeros behind them.
fn column(mut values: Vec<u64>, rows: usize) -> Result<Column, AllocError>
    requires few { length values.items ≤ rows }
    requires small { IsCanonical values.items }
    ensures { IfOk result (λ c. c ≡ padded rows values.items) }
{
    fill(&mut values, rows)?;
    Ok(Column::from_vec(values))
}

#[inline]
#[tactic(auto, unfolding(step_rows::specs::Words::low))]
fn low(v: u64) -> u64
    ensures value { result ≡ low v }
    ensures small { result < 2 ^ 32 }
{
    v % (1 << 32)
}

#[inline]
#[tactic(auto, unfolding(step_rows::specs::Words::high))]
fn high(v: u64) -> u64
    ensures value { result ≡ high v }
    ensures small { result < 2 ^ 32 }
{
    v >> 32
}

/// The column of the low limbs.
pub fn low_column(alloc: Global, values: &[u64], rows: usize) -> Result<Column, AllocError>
    requires { length values.now ≤ rows }
    ensures { IfOk result (λ c. c ≡ padded rows (map low values.now)) }
{
    let limbs = values.iter().map(|v| low(*v)).collect(alloc)?;
    column(limbs, rows)
}

/// The column of the high limbs.
pub fn high_column(alloc: Global, values: &[u64], rows: usize) -> Result<Column, AllocError>
    requires { length values.now ≤ rows }
    ensures { IfOk result (λ c. c ≡ padded rows (map high values.now)) }
{
    let limbs = values.iter().map(|v| high(*v)).collect(alloc)?;
    column(limbs, rows)
}

fn ones(alloc: Global, accesses: &[Access], rows: usize) -> Result<Column, AllocError>
    requires { length accesses.now ≤ rows }
    ensures { IfOk result (λ c. c ≡ padded rows (map (λ _. 1) accesses.now)) }
{
    let values = accesses.iter().map(|_| 1).collect(alloc)?;
    column(values, rows)
}

fn keys(alloc: Global, accesses: &[Access], rows: usize) -> Result<Column, AllocError>
    requires { length accesses.now ≤ rows }
    ensures { IfOk result (λ c. c ≡ padded rows (map (λ (a : AnyAccess). a.key) accesses.now)) }
{
    let values = accesses.iter().map(|a| u64::from(a.key)).collect(alloc)?;
    column(values, rows)
}

fn times(alloc: Global, accesses: &[Access], rows: usize) -> Result<Column, AllocError>
    requires few { length accesses.now ≤ rows }
    requires times { All (λ (a : AnyAccess). a.time ≤ END) accesses.now }
    ensures { IfOk result (λ c. c ≡ padded rows (map (λ (a : AnyAccess). a.time) accesses.now)) }
{
    let values = accesses.iter().map(|a| a.time).collect(alloc)?;
    column(values, rows)
}

#[inline]
fn one_if(b: bool) -> u64
    ensures value { result ≡ one_if b }
    ensures small { result ≤ 1 }
{
    u64::from(b)
}

fn kinds(alloc: Global, accesses: &[Access], rows: usize) -> Result<Column, AllocError>
    requires { length accesses.now ≤ rows }
    ensures { IfOk result (λ c. c ≡ padded rows (map (λ (a : AnyAccess). one_if a.write) accesses.now)) }
{
    let values = accesses.iter().map(|a| one_if(a.write)).collect(alloc)?;
    column(values, rows)
}

fn lows(alloc: Global, accesses: &[Access], rows: usize) -> Result<Column, AllocError>
    requires { length accesses.now ≤ rows }
    ensures { IfOk result (λ c. c ≡ padded rows (map (λ (a : AnyAccess). low a.value) accesses.now)) }
{
    let values = accesses.iter().map(|a| low(a.value)).collect(alloc)?;
    column(values, rows)
}

fn highs(alloc: Global, accesses: &[Access], rows: usize) -> Result<Column, AllocError>
    requires { length accesses.now ≤ rows }
    ensures { IfOk result (λ c. c ≡ padded rows (map (λ (a : AnyAccess). high a.value) accesses.now)) }
{
    let values = accesses.iter().map(|a| high(a.value)).collect(alloc)?;
    column(values, rows)
}

#[inline]
fn gap(before: &Access, access: &Access) -> u64
    ensures { result ≡ gap before.now access.now }
{
    if access.key == before.key {
        access.time.saturating_sub(before.time).saturating_sub(1)
    } else {
        u64::from(access.key.saturating_sub(before.key).saturating_sub(1))
    }
}

#[inline]
fn step_of(before: Option<Access>, access: &Access) -> Step
    ensures { result ≡ step_of before access.now }
{
    match before {
        Some(before) => Step {
            same: access.key == before.key,
            gap: gap(&before, access),
        },
        None => Step {
            same: false,
            gap: 0,
        },
    }
}

fn steps_behind(
    alloc: Global,
    before: Option<Access>,
    accesses: &[Access],
) -> Result<Vec<Step>, AllocError>
    ensures { IfOk result (λ v. v.items ≡ steps_behind before accesses.now) }
{
    let mut steps = Vec::with_capacity(alloc, accesses.len())?;
    let mut last = before;
    for access in accesses {
        steps.push(step_of(last, access))?;
        last = Some(*access);
    }
    Ok(steps)
}

fn sames(alloc: Global, steps: &[Step], rows: usize) -> Result<Column, AllocError>
    requires { length steps.now ≤ rows }
    ensures { IfOk result (λ c. c ≡ padded rows (map (λ (s : AnyStep). one_if s.same) steps.now)) }
{
    let values = steps.iter().map(|s| one_if(s.same)).collect(alloc)?;
    column(values, rows)
}

fn low_gaps(alloc: Global, steps: &[Step], rows: usize) -> Result<Column, AllocError>
    requires { length steps.now ≤ rows }
    ensures { IfOk result (λ c. c ≡ padded rows (map (λ (s : AnyStep). s.gap % 65536) steps.now)) }
{
    let values = steps.iter().map(|s| s.gap % 65536).collect(alloc)?;
    column(values, rows)
}

fn middle_gaps(alloc: Global, steps: &[Step], rows: usize) -> Result<Column, AllocError>
    requires { length steps.now ≤ rows }
    ensures { IfOk result (λ c. c ≡ padded rows (map (λ (s : AnyStep). s.gap / 65536 % 65536) steps.now)) }
{
    let values = steps.iter().map(|s| s.gap / 65536 % 65536).collect(alloc)?;
    column(values, rows)
}

fn high_gaps(alloc: Global, steps: &[Step], rows: usize) -> Result<Column, AllocError>
    requires { length steps.now ≤ rows }
    ensures { IfOk result (λ c. c ≡ padded rows (map (λ (s : AnyStep). s.gap / 2 ^ 32) steps.now)) }
{
    let values = steps.iter().map(|s| s.gap >> 32).collect(alloc)?;
    column(values, rows)
}

// The column that has in each row what another has in the row before.
fn behind(alloc: Global, first: u64, column: &Column) -> Result<Column, AllocError>
    requires some { 0 < length column.now }
    requires small { first < p }
    ensures { IfOk result (λ c. c ≡ first ∷ take (length column.now - 1) column.now) }
{
    let others = column.as_slice();
    let mut values = Vec::with_capacity(alloc, others.len())?;
    values.push(first)?;
    values.extend_from_slice(&others[..others.len() - 1])?;
    Ok(Column::from_vec(values))
}

// The columns of the accesses' own.
fn push_accesses(
    alloc: Global,
    columns: &mut Columns,
    accesses: &[Access],
    rows: usize,
) -> Result<(), AllocError>
    requires few { length accesses.now ≤ rows }
    requires times { All (λ (a : AnyAccess). a.time ≤ END) accesses.now }
    ensures { OnOk result (columns.new ≡ columns.old ++ access_columns rows accesses.now) }
{
    columns.push(ones(alloc, accesses, rows)?)?;
    columns.push(keys(alloc, accesses, rows)?)?;
    columns.push(times(alloc, accesses, rows)?)?;
    Ok(())
}

fn push_values(
    alloc: Global,
    columns: &mut Columns,
    accesses: &[Access],
    rows: usize,
) -> Result<(), AllocError>
    requires { length accesses.now ≤ rows }
    ensures { OnOk result (columns.new ≡ columns.old ++ value_columns rows accesses.now) }
{
    columns.push(kinds(alloc, accesses, rows)?)?;
    columns.push(lows(alloc, accesses, rows)?)?;
    columns.push(highs(alloc, accesses, rows)?)?;
    Ok(())
}

// The columns of what they have to do with those before them.
fn push_steps(
    alloc: Global,
    columns: &mut Columns,
    steps: &[Step],
    rows: usize,
) -> Result<(), AllocError>
    requires { length steps.now ≤ rows }
    ensures { OnOk result (columns.new ≡ columns.old ++ step_columns rows steps.now) }
{
    columns.push(sames(alloc, steps, rows)?)?;
    columns.push(low_gaps(alloc, steps, rows)?)?;
    columns.push(middle_gaps(alloc, steps, rows)?)?;
    columns.push(high_gaps(alloc, steps, rows)?)?;
    Ok(())
}

// The cells of a row that tell of the row before.
#[derive(Clone, Copy, Debug)]
struct Before {
    one: u64,
    key: u64,
    time: u64,
    low: u64,
    high: u64,
}

fn cells_of(before: Option<Access>) -> Before
    requires { IfSome before (λ (a : AnyAccess). a.time ≤ END) }
    ensures one { result.one ≡ option_map_or (λ (a : AnyAccess). 1) before 0 }
    ensures key { result.key ≡ option_map_or (λ (a : AnyAccess). a.key) before 0 }
    ensures time { result.time ≡ option_map_or (λ (a : AnyAccess). a.time) before 0 }
    ensures low { result.low ≡ option_map_or (λ (a : AnyAccess). low a.value) before 0 }
    ensures high { result.high ≡ option_map_or (λ (a : AnyAccess). high a.value) before 0 }
    ensures small { (result.one < p) × (result.key < p) × (result.time < p) × (result.low < p) × (result.high < p) }
{
    match before {
        Some(access) => Before {
            one: 1,
            key: u64::from(access.key),
            time: access.time,
            low: low(access.value),
            high: high(access.value),
        },
        None => Before {
            one: 0,
            key: 0,
            time: 0,
            low: 0,
            high: 0,
        },
    }
}

// The columns of the rows before.
fn push_accesses_before(
    alloc: Global,
    columns: &mut Columns,
    before: Option<Access>,
    accesses: &[Access],
    rows: usize,
) -> Result<(), AllocError>
    requires some { 0 < rows }
    requires few { length accesses.now ≤ rows }
    requires times { All (λ (a : AnyAccess). a.time ≤ END) accesses.now }
    requires before { IfSome before (λ (a : AnyAccess). a.time ≤ END) }
    ensures { OnOk result (columns.new ≡ columns.old ++ access_before rows before accesses.now) }
{
    let cells = cells_of(before);
    let of_ones = behind(alloc, cells.one, &ones(alloc, accesses, rows)?)?;
    columns.push(of_ones)?;
    let of_keys = behind(alloc, cells.key, &keys(alloc, accesses, rows)?)?;
    columns.push(of_keys)?;
    let of_times = behind(alloc, cells.time, &times(alloc, accesses, rows)?)?;
    columns.push(of_times)?;
    Ok(())
}

fn push_values_before(
    alloc: Global,
    columns: &mut Columns,
    before: Option<Access>,
    accesses: &[Access],
    rows: usize,
) -> Result<(), AllocError>
    requires some { 0 < rows }
    requires few { length accesses.now ≤ rows }
    requires times { All (λ (a : AnyAccess). a.time ≤ END) accesses.now }
    requires before { IfSome before (λ (a : AnyAccess). a.time ≤ END) }
    ensures { OnOk result (columns.new ≡ columns.old ++ value_before rows before accesses.now) }
{
    let cells = cells_of(before);
    let of_lows = behind(alloc, cells.low, &lows(alloc, accesses, rows)?)?;
    columns.push(of_lows)?;
    let of_highs = behind(alloc, cells.high, &highs(alloc, accesses, rows)?)?;
    columns.push(of_highs)?;
    Ok(())
}

/// The columns of the rows of accesses behind one.
pub fn columns_of(
    alloc: Global,
    before: Option<Access>,
    accesses: &[Access],
    rows: usize,
) -> Result<Columns, AllocError>
    requires some { 0 < rows }
    requires few { length accesses.now ≤ rows }
    requires times { All (λ (a : AnyAccess). a.time ≤ END) accesses.now }
    requires before { IfSome before (λ (a : AnyAccess). a.time ≤ END) }
    ensures { IfOk result (λ c. c ≡ columns_of rows before accesses.now) }
{
    let steps = steps_behind(alloc, before, accesses)?;
    let mut columns = Columns::new(alloc);
    push_accesses(alloc, &mut columns, accesses, rows)?;
    push_values(alloc, &mut columns, accesses, rows)?;
    push_steps(alloc, &mut columns, &steps, rows)?;
    push_accesses_before(alloc, &mut columns, before, accesses, rows)?;
    push_values_before(alloc, &mut columns, before, accesses, rows)?;
    Ok(columns)
}
