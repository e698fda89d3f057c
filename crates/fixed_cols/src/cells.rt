//! The constants of one row, in order of a namespace's columns.
ghost use Rattle.std.specs.Prelude.{◌≡◌, ◌<◌, ◌≤◌, ◌^◌, ◌∷◌, [], slice_index, Some};
ghost use Rattle.rv_model.specs.declared.machine.TheConstants.{MEMORY_END, OUTPUT_WORDS};
ghost use Rattle.step_rows.specs.Rom.{cells};
ghost use Rattle.step_rows.specs.ShiftRow.{right, signed, wide, amount, at_place, factor, table_row};
ghost use Rattle.step_rows.specs.Words.{one_if};
ghost use Rattle.fixed_cols.specs.Constants.{byte_pair, instruction, doubleword, is_last, is_first, leaves, enters, of_main, of_mem, of_out};

use gold::Fe;
use rv_model::{EXIT_REGISTER, OUTPUT_INDEX, OUTPUT_WORDS};
use step_rows::{Doubleword, REGISTERS, RomRow};

/// The number in a column, and 0 past the last one.
pub(crate) fn cell(cells: &[Fe], column: u32) -> Fe
    ensures { result ≡ slice_index cells.now column }
{
    match cells.get(column as usize) {
        Some(value) => *value,
        None => Fe::ZERO,
    }
}

/// 1 for true.
fn one_if(test: bool) -> Fe
    ensures { result ≡ one_if test }
{
    if test { Fe::ONE } else { Fe::ZERO }
}

/// X, Y and AND of BinTab: the two bytes of a number of 16 bits.
pub(crate) fn byte_pair(row: u32) -> [Fe; 3]
    ensures { result ≡ byte_pair row }
{
    let (x, y) = (row / 256, row % 256);
    [Fe::from(x), Fe::from(y), Fe::from(x & y)]
}

/// The shift's amount, by the low six bits of b.
fn amount(shift: u32, s: u32) -> u32
    ensures { result ≡ amount shift s }
{
    if shift < 3 { s } else { s % 32 }
}

/// By what each digit of 16 bits is multiplied.
fn factor(shift: u32, amount: u32) -> u32
    ensures { result ≡ factor shift amount }
{
    let digit = amount % 16;
    if shift % 3 == 0 {
        1 << digit
    } else {
        1 << (16 - digit)
    }
}

/// ShiftTab's row of a shift, from 0 for SLL to 5 for SRAW, by the low six bits of b.
pub(crate) fn shift_amount(shift: u32, s: u32) -> [Fe; 11]
    requires { shift < 6 }
    ensures { result ≡ table_row shift s }
{
    let by = amount(shift, s);
    [
        Fe::ONE,
        Fe::from(11 + shift),
        Fe::from(s),
        one_if(shift % 3 != 0),
        one_if(shift % 3 == 2),
        one_if(shift >= 3),
        one_if(by / 16 == 0),
        one_if(by / 16 == 1),
        one_if(by / 16 == 2),
        one_if(by / 16 == 3),
        Fe::from(factor(shift, by)),
    ]
}

/// SEL and the columns of a row of Rom.
pub(crate) fn instruction(row: &RomRow) -> [Fe; 22]
    requires { row.now.pc < MEMORY_END }
    ensures { result ≡ instruction (Some row.now) }
{
    [
        Fe::ONE,
        Fe::new(row.pc),
        Fe::from(u32::from(row.rs1)),
        Fe::from(u32::from(row.rs2)),
        Fe::from(u32::from(row.rd)),
        Fe::from(u32::from(row.op)),
        Fe::from(row.ilo),
        Fe::from(row.ihi),
        Fe::from(row.klo),
        Fe::from(row.khi),
        Fe::from(row.jt),
        Fe::from(u32::from(row.kind)),
        Fe::from(u32::from(row.bi)),
        Fe::from(u32::from(row.wr)),
        Fe::from(u32::from(row.ld)),
        Fe::from(u32::from(row.st)),
        Fe::from(u32::from(row.jr)),
        Fe::from(u32::from(row.jp)),
        Fe::from(u32::from(row.br)),
        Fe::from(u32::from(row.inv)),
        Fe::from(u32::from(row.halt)),
        Fe::from(u32::from(row.uw)),
    ]
}

/// SEL, KEY, LO and HI of Init.
#[tactic(auto, unfolding(step_rows::specs::Words::low, step_rows::specs::Words::high))]
pub(crate) fn doubleword(d: &Doubleword) -> [Fe; 4]
    ensures { result ≡ doubleword (Some d.now) }
{
    let low = (d.value % (1 << 32)) as u32;
    let high = (d.value / (1 << 32)) as u32;
    [Fe::ONE, Fe::from(d.number), Fe::from(low), Fe::from(high)]
}

/// Where a row of a namespace is: in row `row` of `rows`, in instance `instance` of `instances`.
#[derive(Clone, Copy)]
pub(crate) struct Place {
    pub instance: u32,
    pub instances: u32,
    pub row: u32,
    pub rows: u32,
}

impl Place {
    fn is_last(self) -> bool
        ensures { one_if result ≡ is_last self.row self.rows }
    {
        u64::from(self.row) + 1 == u64::from(self.rows)
    }

    fn is_first(self) -> bool
        ensures { one_if result ≡ is_first self.instance self.row }
    {
        self.instance == 0 && self.row == 0
    }

    fn leaves(self) -> Fe
        ensures { result ≡ leaves self.instance self.instances self.row self.rows }
    {
        one_if(self.is_last() && u64::from(self.instance) + 1 < u64::from(self.instances))
    }

    fn enters(self) -> Fe
        ensures { result ≡ enters self.instance self.row }
    {
        one_if(self.instance != 0 && self.row == 0)
    }
}

/// STEP, INST, LAST, L0, CLAST, CFIRST, LEND and ENTRY of Main.
pub(crate) fn of_main(entry: u32, at: Place) -> [Fe; 8]
    requires { at.rows < 2 ^ 16 }
    ensures { result ≡ of_main entry at.instance at.instances at.row at.rows }
{
    let step = u64::from(at.instance) * u64::from(at.rows) + u64::from(at.row);
    let is_end = u64::from(at.instance) + 1 == u64::from(at.instances);
    [
        Fe::new(step),
        Fe::from(at.instance),
        one_if(at.is_last()),
        one_if(at.is_first()),
        at.leaves(),
        at.enters(),
        one_if(at.is_last() && is_end),
        Fe::from(if at.is_first() { entry } else { 0 }),
    ]
}

/// INST, LAST, L0, CLAST and CFIRST of Mem.
pub(crate) fn of_mem(at: Place) -> [Fe; 5]
    ensures { result ≡ of_mem at.instance at.instances at.row at.rows }
{
    [
        Fe::from(at.instance),
        one_if(at.is_last()),
        one_if(at.is_first()),
        at.leaves(),
        at.enters(),
    ]
}

/// SEL and KEY of Out, in a row that has them.
pub(crate) fn of_out(row: u32) -> [Fe; 2]
    requires { row ≤ OUTPUT_WORDS }
    ensures { result ≡ of_out row }
{
    let key = if row == 0 {
        REGISTERS + EXIT_REGISTER as u32
    } else {
        OUTPUT_INDEX + row - 1
    };
    [Fe::ONE, Fe::from(key)]
}
