//! Reading a file from its first item to its last.
ghost use Rattle.std.specs.Prelude.{◌≡◌, ◌≢◌, ◌≤◌, ◌<◌, ◌+◌, ◌*◌, ◌^◌, ◌++◌, ◌∷◌, [], List, length, replicate, IfOk, IfErr, MatchResult, None, Some};
ghost use Rattle.std.specs.Int.{w32, w64};
ghost use Rattle.gold.specs.declared.instances.Table.{Table};
ghost use Rattle.gold.specs.declared.instances.Witness.{Witness};
ghost use Rattle.tab_file.specs.declared.fault.TabKind.TheVariants.{NoMemory};
ghost use Rattle.gold.specs.Shapes.{in_profile, instances_from, places_from};
ghost use Rattle.tab_file.specs.Items.{count_items, value_item, instance_items, places_items, first_failure};
ghost use Rattle.tab_file.specs.Reading.{numbers_from, version_items, version_end, front_items, front_end, promised_profile, body_items, items, TabReads, TabFails};
ghost use Rattle.tab_file.specs.Steps.{Pass, Fail, out_of_memory, columns_from, table_at, instance_len, place, body_tables, promised, Leaves};

use crate::fault::{TabErr, TabKind};
use crate::fields::{air_at, count_at, expect, fault, profile_at, value_at};
use crate::numbers::{MAGIC, ONE, TWO};
use gold::{AirShape, Column, Columns, Form, Profile, Shape, Table, Tables, Witness};
use std::alloc::{AllocError, Global};

/// An air of a shape.
#[derive(Clone, Copy)]
struct Air {
    /// How many airs there are.
    airs: u64,
    number: u64,
    form: AirShape,
}

/// A column of so many rows, and the offset after it.
fn column_at(
    alloc: Global,
    bytes: &[u8],
    start: usize,
    rows: u32,
) -> Result<(Column, usize), TabErr>
    requires { start ≤ length bytes.now }
    ensures values { IfOk result (λ r. r.0 ≡ numbers_from w64 bytes.now start rows) }
    ensures next { IfOk result (λ r. r.1 ≡ start + 8 * rows) }
    ensures pass { IfOk result (λ r. Pass bytes.now start (replicate rows value_item) r.1) }
    ensures fail { IfErr result (Fail bytes.now start (replicate rows value_item)) }
{
    let mut column = Column::new(alloc);
    let mut at = start;
    for _ in 0..rows {
        column.push(value_at(bytes, at)?)?;
        at += 8;
    }
    Ok((column, at))
}

/// The columns of an instance, and the offset after them.
fn columns_at(
    alloc: Global,
    bytes: &[u8],
    start: usize,
    form: &AirShape,
) -> Result<(Columns, usize), TabErr>
    requires { start ≤ length bytes.now }
    ensures values { IfOk result (λ r. r.0 ≡ columns_from bytes.now start form.now.columns form.now.rows) }
    ensures next { IfOk result (λ r. r.1 ≡ start + 8 * (form.now.columns * form.now.rows)) }
    ensures pass { IfOk result (λ r. Pass bytes.now start (replicate (form.now.columns * form.now.rows) value_item) r.1) }
    ensures fail { IfErr result (Fail bytes.now start (replicate (form.now.columns * form.now.rows) value_item)) }
{
    let mut columns = Columns::new(alloc);
    let mut at = start;
    for _ in 0..form.columns {
        let (column, next) = column_at(alloc, bytes, at, form.rows)?;
        columns.push(column)?;
        at = next;
    }
    Ok((columns, at))
}

/// An instance of an air, and the offset after it.
fn table(
    alloc: Global,
    bytes: &[u8],
    start: usize,
    air: &Air,
    instance: u32,
) -> Result<(Table, usize), TabErr>
    requires { start ≤ length bytes.now }
    ensures value { IfOk result (λ r. r.0 ≡ table_at bytes.now start (place air.now.number air.now.form instance)) }
    ensures next { IfOk result (λ r. r.1 ≡ start + instance_len (place air.now.number air.now.form instance)) }
    ensures pass { IfOk result (λ r. Pass bytes.now start (instance_items air.now.airs (place air.now.number air.now.form instance)) r.1) }
    ensures fail { IfErr result (Fail bytes.now start (instance_items air.now.airs (place air.now.number air.now.form instance))) }
{
    let Air { airs, number, form } = *air;
    let air = air_at(bytes, start, airs, number)?;
    let instance = expect(bytes, start + 4, instance as u64, TabKind::BadOrder, 4)?;
    expect(bytes, start + 8, form.columns as u64, TabKind::BadShape, 0)?;
    expect(bytes, start + 12, form.rows as u64, TabKind::BadShape, 0)?;
    let (columns, next) = columns_at(alloc, bytes, start + 16, &form)?;
    Ok((
        Table {
            air,
            instance,
            columns,
        },
        next,
    ))
}

/// So many instances of an air, which are added to the tables, and the offset after them.
fn instances(
    alloc: Global,
    bytes: &[u8],
    start: usize,
    air: &Air,
    count: u32,
    tables: &mut Tables,
) -> Result<usize, TabErr>
    requires { start ≤ length bytes.now }
    ensures read { IfOk result (λ next. Leaves bytes.now air.now.airs start (instances_from air.now.number air.now.form 0 count) tables.old next [] tables.new) }
    ensures fail { IfErr result (Fail bytes.now start (places_items air.now.airs (instances_from air.now.number air.now.form 0 count))) }
{
    let mut at = start;
    for i in 0..count {
        let (table, next) = table(alloc, bytes, at, air, i)?;
        tables.push(table)?;
        at = next;
    }
    Ok(at)
}

/// The version, and in format 2 the profile, and the offset after them.
pub(crate) fn version(bytes: &[u8], form: Form) -> Result<(Profile, usize), TabErr>
    requires { 4 ≤ length bytes.now }
    ensures profile { IfOk result (λ r. r.0 ≡ promised_profile bytes.now form) }
    ensures next { IfOk result (λ r. r.1 ≡ version_end form) }
    ensures pass { IfOk result (λ r. Pass bytes.now 4 (version_items form) r.1) }
    ensures fail { IfErr result (Fail bytes.now 4 (version_items form)) }
    ensures item { IfErr result (λ e. e.kind ≢ NoMemory) }
{
    match form {
        Form::Plain | Form::One => {
            expect(bytes, 4, ONE as u64, TabKind::BadVersion, 0)?;
            Ok((Profile::Small, 8))
        }
        Form::Two => {
            expect(bytes, 4, TWO as u64, TabKind::BadVersion, 0)?;
            Ok((profile_at(bytes, 8)?, 12))
        }
    }
}

/// The magic, the version and profile, and the number of airs, and the offset after them.
pub(crate) fn front(bytes: &[u8], form: Form, airs: u64) -> Result<(Profile, usize), TabErr>
    ensures bits { IfOk result (λ _. airs < 2 ^ 32) }
    ensures profile { IfOk result (λ r. r.0 ≡ promised_profile bytes.now form) }
    ensures next { IfOk result (λ r. r.1 ≡ front_end form) }
    ensures pass { IfOk result (λ r. Pass bytes.now 0 (front_items form airs) r.1) }
    ensures fail { IfErr result (Fail bytes.now 0 (front_items form airs)) }
{
    expect(bytes, 0, MAGIC as u64, TabKind::BadMagic, 0)?;
    let (profile, at) = version(bytes, form)?;
    expect(bytes, at, airs, TabKind::BadAir, 0)?;
    Ok((profile, at + 4))
}

/// The airs of a shape in a profile.
pub(crate) fn airs_in(
    alloc: Global,
    shape: &Shape,
    profile: Profile,
) -> Result<Vec<AirShape>, AllocError>
    ensures { IfOk result (λ v. v.items ≡ in_profile profile shape.now.airs) }
{
    let mut airs = Vec::from_slice(alloc, shape.airs.as_slice())?;
    if profile == Profile::Wide && !airs.is_empty() {
        airs[0] = airs[0].widened();
    }
    Ok(airs)
}

/// How many instances of each air there are, and the offset after these numbers.
pub(crate) fn counts(
    alloc: Global,
    bytes: &[u8],
    start: usize,
    machine: bool,
    airs: &[AirShape],
) -> Result<(Vec<u32>, usize), TabErr>
    requires { start ≤ length bytes.now }
    ensures values { IfOk result (λ r. r.0.items ≡ numbers_from w32 bytes.now start (length airs.now)) }
    ensures next { IfOk result (λ r. r.1 ≡ start + 4 * length airs.now) }
    ensures pass { IfOk result (λ r. Pass bytes.now start (count_items machine 0 airs.now) r.1) }
    ensures fail { IfErr result (Fail bytes.now start (count_items machine 0 airs.now)) }
{
    let mut counts = Vec::new(alloc);
    let mut at = start;
    for (air, form) in airs.iter().enumerate() {
        counts.push(count_at(bytes, at, machine, air, form)?)?;
        at += 4;
    }
    Ok((counts, at))
}

/// The instances of all airs, of which there are so many each, and the offset after them.
fn tables(
    alloc: Global,
    bytes: &[u8],
    start: usize,
    airs: &[AirShape],
    counts: &[u32],
) -> Result<(Tables, usize), TabErr>
    requires start { start ≤ length bytes.now }
    requires counts { length counts.now ≡ length airs.now }
    ensures read { IfOk result (λ r. Leaves bytes.now (length airs.now) start (places_from 0 airs.now counts.now) [] r.1 [] r.0) }
    ensures fail { IfErr result (Fail bytes.now start (places_items (length airs.now) (places_from 0 airs.now counts.now))) }
{
    let mut tables = Tables::new(alloc);
    let mut at = start;
    for number in 0..airs.len() {
        let air = Air {
            airs: airs.len() as u64,
            number: number as u64,
            form: airs[number],
        };
        at = instances(alloc, bytes, at, &air, counts[number], &mut tables)?;
    }
    Ok((tables, at))
}

/// All items from the numbers of instances on.
fn body(
    alloc: Global,
    bytes: &[u8],
    start: usize,
    machine: bool,
    airs: &[AirShape],
) -> Result<Tables, TabErr>
    requires { start ≤ length bytes.now }
    ensures ok { IfOk result (λ _. first_failure bytes.now start (body_items machine airs.now (numbers_from w32 bytes.now start (length airs.now))) ≡ None) }
    ensures tables { IfOk result (λ t. t ≡ body_tables bytes.now start airs.now (numbers_from w32 bytes.now start (length airs.now))) }
    ensures err { IfErr result (λ e. e ≢ out_of_memory → first_failure bytes.now start (body_items machine airs.now (numbers_from w32 bytes.now start (length airs.now))) ≡ Some e) }
{
    let (counts, at) = counts(alloc, bytes, start, machine, airs)?;
    let (tables, end) = tables(alloc, bytes, at, airs, &counts)?;
    if end < bytes.len() {
        return Err(fault(TabKind::Trailing, end));
    }
    Ok(tables)
}

/// All items of a file.
fn whole(alloc: Global, bytes: &[u8], shape: &Shape) -> Result<Witness, TabErr>
    ensures ok { IfOk result (λ _. first_failure bytes.now 0 (items bytes.now shape.now) ≡ None) }
    ensures witness { IfOk result (λ w. w ≡ promised bytes.now shape.now) }
    ensures err { IfErr result (λ e. e ≢ out_of_memory → TabFails bytes.now shape.now e.kind e.at) }
{
    let (profile, start) = front(bytes, shape.form, shape.airs.len() as u64)?;
    let airs = airs_in(alloc, shape, profile)?;
    let tables = body(alloc, bytes, start, shape.form.is_machine(), &airs)?;
    Ok(Witness { profile, tables })
}

/// The witness that the bytes spell under a shape.
///
/// # Errors
///
/// The first item in the order of the file that fails, as [`TabKind`] says, or `NoMemory` at offset 0.
pub fn read(alloc: Global, bytes: &[u8], shape: &Shape) -> Result<Witness, TabErr>
    // What is read has the shape, and the bytes are its text.
    ensures reads { IfOk result (TabReads bytes.now shape.now) }
    // What has the shape and is spelled so is read, unless memory runs out.
    ensures only { (witness : Witness) → TabReads bytes.now shape.now witness → MatchResult result (λ w. w ≡ witness) (λ e. e.kind ≡ NoMemory) }
    // Which item fails.
    ensures fails { IfErr result (λ e. e.kind ≢ NoMemory → TabFails bytes.now shape.now e.kind e.at) }
    // Want of memory has no place in the file.
    ensures memory { IfErr result (λ e. e.kind ≡ NoMemory → e.at ≡ 0) }
{
    let witness = whole(alloc, bytes, shape)?;
    Ok(witness)
}
