//! The rows of Rom.
ghost use Rattle.std.specs.Prelude.{◌≡◌, ◌<◌, ◌≤◌, ◌^◌, max, length, All, IfOk, OnOk};
ghost use Rattle.step_rows.specs.Rom.{row_at, rom_rows};
ghost use Rattle.image_rows.specs.Found.{HasAllRows, first_word, end_word};

use rv_model::{Image, MEMORY_END, Segment};
use rv_word::Instr;
use std::alloc::{AllocError, Global};
use step_rows::RomRow;

// The row of the executable word at pc, if it is an instruction other than EBREAK.
fn row_at(image: &Image, pc: u64) -> Option<RomRow>
    ensures { result ≡ row_at image.now pc }
{
    match image.instruction(pc) {
        None | Some(Instr::Ebreak) => None,
        Some(instr) => Some(RomRow::of(pc, instr)),
    }
}

// Adds the rows of the words from one up to another.
fn add_rows(rows: &mut Vec<RomRow>, image: &Image, from: u64, to: u64) -> Result<(), AllocError>
    requires most { to < 2 ^ 32 }
    requires found { HasAllRows image.now rows.old.items from }
    ensures { OnOk result (HasAllRows image.now rows.new.items (max from to)) }
{
    for k in from..to {
        if let Some(row) = row_at(image, 4 * k) {
            rows.push(row)?;
        }
    }
    Ok(())
}

// The number of the segment's first whole word.
fn first_word(segment: &Segment) -> u64
    ensures { result ≡ first_word segment.now }
{
    (u64::from(segment.start) + 3) / 4
}

// The number after the last word that has bytes of the segment's file part.
fn end_word(segment: &Segment) -> u64
    ensures value { result ≡ end_word segment.now }
    ensures most { result < 2 ^ 32 }
{
    (u64::from(segment.start) + segment.bytes.len() as u64 + 3) / 4
}

/// The rows of Rom: one for each executable word that is an instruction other than EBREAK, in order of pc.
///
/// # Errors
///
/// Memory ran out.
pub fn rom_rows(alloc: Global, image: &Image) -> Result<Vec<RomRow>, AllocError>
    ensures value { IfOk result (λ v. v.items ≡ rom_rows image.now) }
    ensures few { IfOk result (λ v. length v.items ≤ 2 ^ 30) }
    ensures in_memory { IfOk result (λ v. All (λ row. row.pc < MEMORY_END) v.items) }
{
    let mut rows = Vec::new(alloc);
    for segment in &image.segments {
        if segment.exec {
            add_rows(&mut rows, image, first_word(segment), end_word(segment))?;
        }
    }
    Ok(rows)
}

/// The first pc, which lies in memory.
pub fn entry(image: &Image) -> u32
    ensures { result ≡ image.now.entry }
{
    image.entry as u32
}
