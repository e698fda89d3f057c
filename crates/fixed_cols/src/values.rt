//! The values of all constant columns.
ghost use Rattle.std.specs.Prelude.{◌≡◌, ◌+◌, ◌*◌, ◌<◌, ◌^◌, slice_get, slice_index, IfOk};
ghost use Rattle.zk_layout.specs.Air.{air_number, rows_in};
ghost use Rattle.zk_layout.specs.Namespaces.{namespace_at};
ghost use Rattle.fixed_cols.specs.Constants.{instruction, doubleword, fixed_of, instances_for, instances_in, constant_in};

use crate::Sizes;
use crate::cells::{
    Place, byte_pair, cell, doubleword, instruction, of_main, of_mem, of_out, shift_amount,
};
use gold::Fe;
use image_rows::{entry, initial_doublewords, rom_rows};
use rv_model::{Image, OUTPUT_WORDS};
use std::alloc::{AllocError, Global};
use std::marker::Model;
use step_rows::{Doubleword, RomRow};
use zk_layout::{Air, Namespace};

/// How many rows Rom and Init have in an instance.
const ROWS: usize = 1024;

/// The constants of a program and of tables of some sizes. It keeps the rows of Rom and Init; the others are computed.
#[derive(Debug, Drop)]
pub struct FixedValues {
    entry: u32,
    rom: Vec<RomRow>,
    initial: Vec<Doubleword>,
    sizes: Sizes,
}

impl Model for FixedValues {
    ghost use Rattle.std.specs.Prelude.{◌≤◌, ◌<◌, ◌^◌, length, All};
    ghost use Rattle.rv_model.specs.declared.machine.TheConstants.{MEMORY_END};
    ghost use Rattle.fixed_cols.specs.Constants.{Fixed};

    ghost Value = { Fixed };

    ghost view = { λ f. record { entry = f.entry; rom = f.rom.items; initial = f.initial.items; sizes = f.sizes } };

    ghost invariant = { λ f. record {
      few_rows : length f.rom.items ≤ 2 ^ 30;
      few_doublewords : length f.initial.items ≤ 2 ^ 30;
      in_memory : All (λ row. row.pc < MEMORY_END) f.rom.items;
    } };
}

/// How many instances some rows need, at least one.
fn instances_for(rows: usize) -> u32
    requires { rows < 2 ^ 32 }
    ensures { result ≡ instances_for rows }
{
    (((rows + ROWS - 1) / ROWS) as u32).max(1)
}

/// The constants of an image, for tables of these sizes.
///
/// # Errors
///
/// Memory ran out.
pub fn constants(alloc: Global, image: &Image, sizes: &Sizes) -> Result<FixedValues, AllocError>
    ensures { IfOk result (λ f. f ≡ fixed_of image.now sizes.now) }
{
    let rom = rom_rows(alloc, image)?;
    let initial = initial_doublewords(alloc, image)?;
    Ok(FixedValues {
        entry: entry(image),
        rom,
        initial,
        sizes: *sizes,
    })
}

impl FixedValues {
    fn count(&self, air: Air) -> u32
        ensures { result ≡ slice_index self.now.sizes.counts (air_number air) }
    {
        self.sizes.counts[air.number() as usize]
    }

    /// How many instances the namespace of this number has.
    pub fn instances(&self, space: u32) -> u32
        requires { space < 13 }
        ensures { result ≡ instances_in self.now (namespace_at space) }
    {
        match Namespace::at(space) {
            Namespace::Bit | Namespace::Range16 | Namespace::BinTab | Namespace::ShiftTab => 1,
            Namespace::Rom => instances_for(self.rom.len()),
            Namespace::Init => instances_for(self.initial.len()),
            Namespace::Main => self.count(Air::Main),
            Namespace::Mem => self.count(Air::Mem),
            Namespace::Out => self.count(Air::Out),
            Namespace::Align => self.count(Air::Align),
            Namespace::Binary => self.count(Air::Binary),
            Namespace::Shift => self.count(Air::Shift),
            Namespace::Arith => self.count(Air::Arith),
        }
    }

    fn place(&self, air: Air, instance: u32, row: u32) -> Place
        ensures { result ≡ record { instance = instance; instances = slice_index self.now.sizes.counts (air_number air); row = row; rows = rows_in self.now.sizes.profile air } }
    {
        Place {
            instance,
            instances: self.count(air),
            row,
            rows: air.rows_in(self.sizes.profile),
        }
    }

    fn rom_cell(&self, instance: u32, column: u32, row: u32) -> Fe
        ensures { result ≡ slice_index (instruction (slice_get self.now.rom (1024 * instance + row))) column }
    {
        match self.rom.get(ROWS * instance as usize + row as usize) {
            Some(found) => cell(&instruction(found), column),
            None => Fe::ZERO,
        }
    }

    fn init_cell(&self, instance: u32, column: u32, row: u32) -> Fe
        ensures { result ≡ slice_index (doubleword (slice_get self.now.initial (1024 * instance + row))) column }
    {
        match self.initial.get(ROWS * instance as usize + row as usize) {
            Some(found) => cell(&doubleword(found), column),
            None => Fe::ZERO,
        }
    }

    /// The value of a constant column of the namespace of this number, at a row of an instance. Columns are numbered in
    /// order of the machine's text.
    pub fn at(&self, space: u32, instance: u32, column: u32, row: u32) -> Fe
        requires { space < 13 }
        ensures { result ≡ constant_in self.now (namespace_at space) instance column row }
    {
        match Namespace::at(space) {
            Namespace::Bit | Namespace::Range16 => cell(&[Fe::from(row)], column),
            Namespace::BinTab => cell(&byte_pair(row), column),
            Namespace::ShiftTab if row < 384 => cell(&shift_amount(row / 64, row % 64), column),
            Namespace::Rom => self.rom_cell(instance, column, row),
            Namespace::Init => self.init_cell(instance, column, row),
            Namespace::Main => {
                cell(
                    &of_main(self.entry, self.place(Air::Main, instance, row)),
                    column,
                )
            }
            Namespace::Mem => cell(&of_mem(self.place(Air::Mem, instance, row)), column),
            Namespace::Out if row <= OUTPUT_WORDS => cell(&of_out(row), column),
            _ => Fe::ZERO,
        }
    }
}
