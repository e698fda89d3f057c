//! What a row of Align is made of, and its cells.
ghost use Rattle.std.specs.Prelude.{◌≡◌, ◌<◌};
ghost use Rattle.step_rows.specs.AlignRow.{highest};

use min_trace::StepRecord;
use row_columns::{Cell, byte, flag};
use run_rows::FromStep;
use rv_word::Kind;

/// A load's or a store's access to a doubleword, with rs2's value.
#[derive(Clone, Copy, Debug, PartialEq, Eq)]
pub struct Accessed {
    pub kind: Kind,
    /// The byte within the doubleword at which the access begins.
    pub off: u8,
    /// The doubleword before the step.
    pub old: u64,
    /// rs2's value.
    pub value: u64,
}

impl FromStep for Accessed {
    ghost use Rattle.align_rows.specs.Cells.{accessed};

    ghost taken = { accessed };

    #[inline(always)]
    fn from_step(step: &StepRecord) -> Accessed {
        match step.mem {
            Some(act) => Accessed {
                kind: act.kind,
                off: act.off,
                old: act.old,
                value: step.s,
            },
            None => Accessed {
                kind: Kind::Lb,
                off: 0,
                old: 0,
                value: step.s,
            },
        }
    }
}

/// A column of Align.
#[derive(Clone, Copy, Debug, PartialEq, Eq)]
pub enum AlignCell {
    Selector,
    /// Whether the kind has this number.
    IsKind(u32),
    /// Whether the access begins at this byte.
    IsOff(u32),
    /// A byte of the old doubleword.
    OldByte(u32),
    /// A byte of rs2's value.
    ValueByte(u32),
    /// The sign of what a load reads, where it copies the sign.
    Sign,
    /// The other bits of the byte with the sign.
    BelowSign,
}

// The byte with the sign of what a load reads, where the load copies the sign.
#[inline(always)]
fn highest(access: &Accessed) -> u64
    ensures value { result ≡ highest access.now.kind access.now.off access.now.old }
    ensures below { result < 256 }
{
    let off = u32::from(access.off);
    match access.kind {
        Kind::Lb => byte(access.old, off),
        Kind::Lh => byte(access.old, off + 1),
        Kind::Lw => byte(access.old, off + 3),
        _ => 0,
    }
}

impl Cell<Accessed> for AlignCell {
    ghost use Rattle.align_rows.specs.Cells.{cell_of};

    ghost value = { cell_of };

    #[inline(always)]
    #[tactic(auto, unfolding(crate::specs::Cells::cell_of))]
    fn of(self, access: &Accessed) -> u64 {
        match self {
            AlignCell::Selector => 1,
            AlignCell::IsKind(k) => flag(u32::from(access.kind.number()), k),
            AlignCell::IsOff(k) => flag(u32::from(access.off), k),
            AlignCell::OldByte(i) => byte(access.old, i),
            AlignCell::ValueByte(i) => byte(access.value, i),
            AlignCell::Sign => highest(access) >> 7,
            AlignCell::BelowSign => highest(access) & 0x7f,
        }
    }
}

/// The columns in order.
pub const CELLS: [AlignCell; 38] = [
    AlignCell::Selector,
    AlignCell::IsKind(1),
    AlignCell::IsKind(2),
    AlignCell::IsKind(3),
    AlignCell::IsKind(4),
    AlignCell::IsKind(5),
    AlignCell::IsKind(6),
    AlignCell::IsKind(7),
    AlignCell::IsKind(8),
    AlignCell::IsKind(9),
    AlignCell::IsKind(10),
    AlignCell::IsKind(11),
    AlignCell::IsOff(0),
    AlignCell::IsOff(1),
    AlignCell::IsOff(2),
    AlignCell::IsOff(3),
    AlignCell::IsOff(4),
    AlignCell::IsOff(5),
    AlignCell::IsOff(6),
    AlignCell::IsOff(7),
    AlignCell::OldByte(0),
    AlignCell::OldByte(1),
    AlignCell::OldByte(2),
    AlignCell::OldByte(3),
    AlignCell::OldByte(4),
    AlignCell::OldByte(5),
    AlignCell::OldByte(6),
    AlignCell::OldByte(7),
    AlignCell::ValueByte(0),
    AlignCell::ValueByte(1),
    AlignCell::ValueByte(2),
    AlignCell::ValueByte(3),
    AlignCell::ValueByte(4),
    AlignCell::ValueByte(5),
    AlignCell::ValueByte(6),
    AlignCell::ValueByte(7),
    AlignCell::Sign,
    AlignCell::BelowSign,
];
