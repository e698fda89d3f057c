//! What the table of Out publishes.
ghost use Rattle.std.specs.Prelude.{◌≡◌, ◌+◌, ◌*◌, ◌%◌, ◌^◌, ◌<◌, ◌≤◌, ◌++◌, [], length, take, drop, slice_index_or, All};
ghost use Rattle.std.specs.Int.{to_le_bytes, w64};
ghost use Rattle.verdict.specs.Told.{low_at, told_by, told_bytes, told_number};

use gold::{Table, join_limbs};
use rv_model::{OUTPUT_LEN, OUTPUT_WORDS, Public};

// The low 32 bits of a value.
fn limb(table: &Table, column: usize, row: u32) -> u32
    requires column { column < length table.now.columns }
    requires row { row < length (slice_index_or table.now.columns column []) }
    ensures { result ≡ low_at table.now column row }
{
    let value = table.columns.at(column, row as usize);
    (value.value() % (1 << 32)) as u32
}

// The number that a row publishes.
fn number(table: &Table, row: u32) -> u64
    requires columns { length table.now.columns ≡ 2 }
    requires rows { All (λ c. length c ≡ 64) table.now.columns }
    requires row { row < 33 }
    ensures { result ≡ told_number table.now row }
{
    join_limbs(limb(table, 0, row), limb(table, 1, row))
}

// Eight bytes of the output.
fn set_bytes(output: &mut [u8; OUTPUT_LEN], at: usize, value: u64)
    requires { at + 8 ≤ OUTPUT_LEN }
    ensures bytes { output.new ≡ take at output.old ++ to_le_bytes w64 value ++ drop (at + 8) output.old }
    ensures long { length output.new ≡ OUTPUT_LEN }
{
    output[at..at + 8].copy_from_slice(&value.to_le_bytes());
}

// The doublewords of the output window, in the rows after the first.
fn output(table: &Table) -> [u8; OUTPUT_LEN]
    requires columns { length table.now.columns ≡ 2 }
    requires rows { All (λ c. length c ≡ 64) table.now.columns }
    ensures { result ≡ told_bytes table.now OUTPUT_WORDS }
{
    let mut output = [0; OUTPUT_LEN];
    for i in 0..OUTPUT_WORDS {
        let value = number(table, i + 1);
        set_bytes(&mut output, 8 * i as usize, value);
    }
    output
}

/// The public output that the table of Out tells.
pub(crate) fn told_by(table: &Table) -> Public
    requires columns { length table.now.columns ≡ 2 }
    requires rows { All (λ c. length c ≡ 64) table.now.columns }
    ensures { result ≡ told_by table.now }
{
    Public {
        exit: number(table, 0),
        output: output(table),
    }
}
