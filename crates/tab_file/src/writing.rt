//! Writing the tables of a machine in format 2.
ghost use Rattle.std.specs.Prelude.{◌≡◌, ℕ, ◌<◌, ◌^◌, ◌==◌, ◌++◌, length, count_by, IfOk, OnOk};
ghost use Rattle.std.specs.List.{flat_map};
ghost use Rattle.gold.specs.Shapes.{counts_from, HaveShape};
ghost use Rattle.zk_layout.specs.Air.{machine_shape_of};
ghost use Rattle.tab_file.specs.Format.{number, value, profile_number, header, instance_text, text};
ghost use Rattle.tab_file.specs.Reading.{TabReads};
ghost use Rattle.tab_file.specs.Steps.{height};
ghost use Rattle.tab_file.specs.Pieces.{head_text, table_text, IsSmall};
ghost use Rattle.gold.specs.declared.shapes.Form.TheVariants.{Two};

use crate::numbers::{MAGIC, SMALL, TWO, WIDE};
use gold::{Column, Profile, Table, Witness};
use std::alloc::{AllocError, Global};
use zk_layout::Air;

/// The number of airs of a machine.
const AIRS: u32 = Air::ALL.len() as u32;

/// A profile in format 2.
fn profile_number(profile: Profile) -> u32
    ensures { result ≡ profile_number profile }
{
    match profile {
        Profile::Small => SMALL,
        Profile::Wide => WIDE,
    }
}

fn put_number(out: &mut Vec<u8>, n: u32) -> Result<(), AllocError>
    ensures { OnOk result (out.new.items ≡ out.old.items ++ number n) }
{
    out.extend_from_slice(&n.to_le_bytes())
}

fn put_column(out: &mut Vec<u8>, column: &Column) -> Result<(), AllocError>
    ensures { OnOk result (out.new.items ≡ out.old.items ++ flat_map value column.now) }
{
    for v in column.as_slice() {
        out.extend_from_slice(&v.to_le_bytes())?;
    }
    Ok(())
}

/// The number of rows, which the first column tells.
fn rows(table: &Table) -> usize
    ensures { result ≡ height table.now.columns }
{
    match table.columns.as_slice() {
        [] => 0,
        [first, ..] => first.len(),
    }
}

fn put_columns(out: &mut Vec<u8>, columns: &[Column]) -> Result<(), AllocError>
    ensures { OnOk result (out.new.items ≡ out.old.items ++ flat_map (flat_map value) columns.now) }
{
    for column in columns {
        put_column(out, column)?;
    }
    Ok(())
}

fn put_table(out: &mut Vec<u8>, table: &Table) -> Result<(), AllocError>
    requires { IsSmall table.now }
    ensures { OnOk result (out.new.items ≡ out.old.items ++ instance_text (height table.now.columns) table.now) }
{
    put_number(out, table.air)?;
    put_number(out, table.instance)?;
    put_number(out, table.columns.len() as u32)?;
    put_number(out, rows(table) as u32)?;
    put_columns(out, table.columns.as_slice())?;
    Ok(())
}

/// Writes one instance of a machine's tables.
///
/// # Errors
///
/// Memory ran out.
#[tactic(auto, unfolding(crate::specs::Pieces::table_text))]
pub fn write_table(out: &mut Vec<u8>, table: &Table) -> Result<(), AllocError>
    requires { IsSmall table.now }
    ensures { OnOk result (out.new.items ≡ out.old.items ++ table_text table.now) }
{
    put_table(out, table)
}

/// How many of the tables are of an air.
fn count(tables: &[Table], air: u32) -> usize
    ensures { result ≡ count_by (λ t. t.air == air) tables.now }
{
    tables.iter().filter(|t| t.air == air).count()
}

fn put_header(out: &mut Vec<u8>, witness: &Witness) -> Result<(), AllocError>
    requires { (air : ℕ) → air < 7 → count_by (λ t. t.air == air) witness.now.tables < 2 ^ 32 }
    ensures { OnOk result (out.new.items ≡ out.old.items ++ header Two witness.now.profile 7 (counts_from 0 7 witness.now.tables)) }
{
    put_number(out, MAGIC)?;
    put_number(out, TWO)?;
    put_number(out, profile_number(witness.profile))?;
    put_number(out, AIRS)?;
    for air in 0..AIRS {
        put_number(out, count(witness.tables.as_slice(), air) as u32)?;
    }
    Ok(())
}

/// Writes what stands before the instances of a machine's tables.
///
/// # Errors
///
/// Memory ran out.
#[tactic(auto, unfolding(crate::specs::Pieces::head_text))]
pub fn write_head(out: &mut Vec<u8>, witness: &Witness) -> Result<(), AllocError>
    requires { HaveShape (machine_shape_of Two) witness.now }
    ensures { OnOk result (out.new.items ≡ out.old.items ++ head_text witness.now) }
{
    put_header(out, witness)
}

/// The file of a machine's tables: format 2, in their profile.
///
/// # Errors
///
/// Memory ran out.
pub fn write(alloc: Global, witness: &Witness) -> Result<Vec<u8>, AllocError>
    requires { HaveShape (machine_shape_of Two) witness.now }
    ensures text { IfOk result (λ v. v.items ≡ text (machine_shape_of Two) witness.now) }
    // It reads as these tables.
    ensures reads { IfOk result (λ v. TabReads v.items (machine_shape_of Two) witness.now) }
{
    let tables = witness.tables.as_slice();
    let mut out = Vec::new(alloc);
    put_header(&mut out, witness)?;
    for table in tables {
        put_table(&mut out, table)?;
    }
    Ok(out)
}
