//! The reports of commands that did their work.
ghost use Rattle.std.specs.Prelude.{◌≡◌, ◌==◌, ◌++◌, Some, All, map, flat_map, count_by, IfOk, OnOk};
ghost use Rattle.pil_ast.specs.Tree.{line, namespaces};
ghost use Rattle.pil_ast.specs.Columns.{Fits};
ghost use Rattle.pil_ast.specs.Sound.{IsSound};
ghost use Rattle.pil_ast.specs.Reading.{IsPlaceIn};
ghost use Rattle.pil_ast.specs.Value.{value_of_place};
ghost use Rattle.zk_top.specs.Outcome.{public_text, run_report, check_report, demo_report, instances_text, public_line, pil_report};
ghost use Rattle.zk_top.specs.Parts.{IsPublicIn};

use gold::{Fe, Table, Witness};
use itoa::Buffer;
use pil_ast::{Columns, Item, Pil, Place};
use rv_model::Public;
use std::alloc::{AllocError, Global};
use zk_layout::Air;

/// The number of airs.
const AIRS: u32 = Air::ALL.len() as u32;

/// The number of steps, the exit code, and the output window in hexadecimal digits, a line each.
pub fn run_text(alloc: Global, steps: u32, public: &Public) -> Result<Vec<u8>, AllocError>
    ensures { IfOk result (λ text. text.items ≡ run_report steps public.now) }
{
    let mut text = Vec::from_slice(alloc, b"steps ")?;
    text.extend_from_slice(Buffer::new().format(steps).as_bytes())?;
    text.push(b'\n')?;
    push_public_output(alloc, public, &mut text)?;
    Ok(text)
}

/// The line `accepted`, the exit code, and the output window in hexadecimal digits, a line each.
pub fn check_text(alloc: Global, public: &Public) -> Result<Vec<u8>, AllocError>
    ensures { IfOk result (λ text. text.items ≡ check_report public.now) }
{
    let mut text = Vec::from_slice(alloc, b"accepted\n")?;
    push_public_output(alloc, public, &mut text)?;
    Ok(text)
}

/// The report of a run, how many tables there are of each air, and the line `accepted`.
pub fn demo_text(
    alloc: Global,
    steps: u32,
    public: &Public,
    witness: &Witness,
) -> Result<Vec<u8>, AllocError>
    ensures { IfOk result (λ text. text.items ≡ demo_report steps public.now witness.now) }
{
    let mut text = run_text(alloc, steps, public)?;
    push_instances(witness, &mut text)?;
    text.extend_from_slice(b"accepted\n")?;
    Ok(text)
}

// How many of the tables are of an air.
fn tables_of_air(tables: &[Table], air: u32) -> usize
    ensures { result ≡ count_by (λ t. t.air == air) tables.now }
{
    tables.iter().filter(|t| t.air == air).count()
}

// Writes the line that counts the tables of each air.
fn push_instances(witness: &Witness, text: &mut Vec<u8>) -> Result<(), AllocError>
    ensures { OnOk result (text.new.items ≡ text.old.items ++ instances_text witness.now) }
{
    text.extend_from_slice(b"instances")?;
    for air in 0..AIRS {
        text.push(b' ')?;
        let count = tables_of_air(witness.tables.as_slice(), air);
        text.extend_from_slice(Buffer::new().format(count).as_bytes())?;
    }
    text.push(b'\n')?;
    Ok(())
}

// Writes the lines of what is published.
fn push_public_output(alloc: Global, public: &Public, text: &mut Vec<u8>) -> Result<(), AllocError>
    ensures { OnOk result (text.new.items ≡ text.old.items ++ public_text public.now) }
{
    text.extend_from_slice(b"exit ")?;
    text.extend_from_slice(Buffer::new().format(public.exit).as_bytes())?;
    text.extend_from_slice(b"\noutput ")?;
    let digits = hex::encode(alloc, public.output.as_slice())?;
    text.extend_from_slice(digits.as_bytes())?;
    text.push(b'\n')?;
    Ok(())
}

/// The line `accepted`, and the publics by name and value in order of the text, a line each.
pub fn pil_text<C: Columns>(alloc: Global, pil: &Pil, columns: &C) -> Result<Vec<u8>, AllocError>
    requires sound { IsSound (namespaces pil.now) }
    requires fits { Fits (namespaces pil.now) (C.values columns.now) }
    ensures { IfOk result (λ text. text.items ≡ pil_report (namespaces pil.now) (C.values columns.now)) }
{
    let mut text = Vec::from_slice(alloc, b"accepted\n")?;
    for space in pil.spaces.as_slice() {
        push_publics(columns, space.items.as_slice(), &mut text)?;
    }
    Ok(text)
}

// Writes the lines of the publics among the items.
fn push_publics<C: Columns>(
    columns: &C,
    items: &[Item],
    text: &mut Vec<u8>,
) -> Result<(), AllocError>
    requires { All (IsPublicIn (C.values columns.now)) (map line items.now) }
    ensures { OnOk result (text.new.items ≡ text.old.items ++ flat_map (public_line (C.values columns.now)) (map line items.now)) }
{
    for item in items {
        push_public(columns, item, text)?;
    }
    Ok(())
}

// Writes the line of an item, where it is a public.
fn push_public<C: Columns>(columns: &C, item: &Item, text: &mut Vec<u8>) -> Result<(), AllocError>
    requires { IsPublicIn (C.values columns.now) (line item.now) }
    ensures { OnOk result (text.new.items ≡ text.old.items ++ public_line (C.values columns.now) (line item.now)) }
{
    match item {
        Item::Public {
            name,
            space,
            column,
            row,
        } => {
            let place = Place {
                space: *space,
                column: *column,
                row: *row,
            };
            let value = value_at(columns, place);
            text.extend_from_slice(name.as_slice())?;
            text.push(b' ')?;
            text.extend_from_slice(Buffer::new().format(value.value()).as_bytes())?;
            text.push(b'\n')?;
            Ok(())
        }
        _ => Ok(()),
    }
}

// The value of a public, 0 where its namespace has no instance.
fn value_at<C: Columns>(columns: &C, place: Place) -> Fe
    requires { IsPlaceIn (C.values columns.now) place }
    ensures { result ≡ value_of_place (C.values columns.now) (Some place) }
{
    if columns.instances(place.space) == 0 {
        Fe::ZERO
    } else {
        columns.at(place.space, 0, place.column, place.row)
    }
}
