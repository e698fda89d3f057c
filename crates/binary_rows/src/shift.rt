//! What a row of Shift is made of, and its cells.
ghost use Rattle.std.specs.Prelude.{◌≡◌, ◌≤◌, ◌%◌, ◌^◌};
ghost use Rattle.step_rows.specs.ShiftRow.{right, signed, wide, amount, at_place, factor, top_digit};
ghost use Rattle.binary_rows.specs.ShiftCells.{moved, place, shifted};

use min_trace::{StepRecord, uw_of};
use row_columns::{Cell, digit, flag};
use run_rows::FromStep;
use rv_model::operand;
use rv_word::OpNo;

/// A shift, and by what it multiplies digits.
#[derive(Clone, Copy, Debug, PartialEq, Eq)]
pub struct Moved {
    /// From 0 for SLL to 5 for SRAW.
    pub number: u8,
    pub a: u64,
    pub b: u64,
    pub v: u64,
    /// By how much is shifted, below 64.
    pub amount: u32,
    /// By what each digit of 16 bits is multiplied.
    pub times: u32,
    /// The digit of the first operand that has its sign.
    pub top: u16,
}

#[inline(always)]
fn right(n: u8) -> u64
    ensures value { result ≡ right n }
    ensures below { result ≤ 1 }
{
    u64::from(n % 3 != 0)
}

#[inline(always)]
fn signed(n: u8) -> u64
    ensures value { result ≡ signed n }
    ensures below { result ≤ 1 }
{
    u64::from(n % 3 == 2)
}

#[inline(always)]
fn wide(n: u8) -> u64
    ensures value { result ≡ wide n }
    ensures below { result ≤ 1 }
{
    u64::from(n >= 3)
}

#[inline(always)]
fn amount(n: u8, b: u64) -> u32
    ensures value { result ≡ amount n (b % 2 ^ 6) }
    ensures below { result ≤ 63 }
{
    let low = (b & 63) as u32;
    if n < 3 { low } else { low % 32 }
}

#[inline(always)]
fn factor(n: u8, amount: u32) -> u32
    ensures { result ≡ factor n amount }
{
    if n % 3 == 0 {
        1 << (amount % 16)
    } else {
        1 << (16 - amount % 16)
    }
}

// A digit.
#[inline(always)]
fn place(v: u64, i: u32) -> u64
    ensures value { result ≡ place i v }
    ensures below { result ≤ 65535 }
{
    digit(v, i)
}

#[inline(always)]
fn top_digit(n: u8, a: u64) -> u16
    ensures { result ≡ top_digit n a }
{
    if n < 3 {
        ((a >> 48) & 0xffff) as u16
    } else {
        ((a >> 16) & 0xffff) as u16
    }
}

#[inline(always)]
fn shift_of(op: OpNo, a: u64, b: u64, v: u64) -> Moved
    ensures { result ≡ moved op a b v }
{
    let number = op.number().saturating_sub(11);
    let amount = amount(number, b);
    Moved {
        number,
        a,
        b,
        v,
        amount,
        times: factor(number, amount),
        top: top_digit(number, a),
    }
}

impl FromStep for Moved {
    ghost use Rattle.binary_rows.specs.ShiftCells.{moved_by};

    ghost taken = { moved_by };

    #[inline(always)]
    fn from_step(step: &StepRecord) -> Moved {
        shift_of(step.op, operand(uw_of(&step.instr), step.a), step.b, step.c)
    }
}

/// A column of Shift.
#[derive(Clone, Copy, Debug, PartialEq, Eq)]
pub enum ShiftCell {
    Selector,
    /// The operation's number.
    Operation,
    FirstDigit(u32),
    SecondHigh,
    /// The low six bits of the second operand, and the two limbs of the rest of its low limb.
    Amount,
    QuotientLow,
    QuotientHigh,
    Right,
    Signed,
    Wide,
    /// Whether so many whole digits are passed over.
    AtPlace(u32),
    Times,
    /// The first operand's sign, and the rest of the digit that has it.
    Sign,
    BelowSign,
    /// The halves of a digit's multiple.
    HighPart(u32),
    LowPart(u32),
    /// The highest bit of the value's low limb, and the rest of the digit.
    WordSign,
    WordRest,
}

// A digit as it is shifted.
#[inline(always)]
fn shifted(made: &Moved, i: u32) -> u64
    ensures value { result ≡ shifted i made.now }
    ensures below { result ≤ 65535 }
{
    if i < 2 || made.number < 3 {
        place(made.a, i)
    } else {
        signed(made.number) * u64::from(made.top >> 15) * 65535
    }
}

impl Cell<Moved> for ShiftCell {
    ghost use Rattle.binary_rows.specs.ShiftCells.{cell_of};

    ghost value = { cell_of };

    #[inline(always)]
    #[tactic(auto, unfolding(crate::specs::ShiftCells::cell_of))]
    fn of(self, made: &Moved) -> u64 {
        match self {
            ShiftCell::Selector => 1,
            ShiftCell::Operation => 11 + u64::from(made.number),
            ShiftCell::FirstDigit(i) => place(made.a, i),
            ShiftCell::SecondHigh => made.b >> 32,
            ShiftCell::Amount => made.b & 63,
            ShiftCell::QuotientLow => (made.b >> 6) & 0xffff,
            ShiftCell::QuotientHigh => (made.b >> 22) & 0x3ff,
            ShiftCell::Right => right(made.number),
            ShiftCell::Signed => signed(made.number),
            ShiftCell::Wide => wide(made.number),
            ShiftCell::AtPlace(j) => flag(made.amount / 16, j),
            ShiftCell::Times => u64::from(made.times),
            ShiftCell::Sign => u64::from(made.top >> 15),
            ShiftCell::BelowSign => u64::from(made.top & 0x7fff),
            ShiftCell::HighPart(i) => shifted(made, i) * u64::from(made.times) >> 16,
            ShiftCell::LowPart(i) => shifted(made, i) * u64::from(made.times) & 0xffff,
            ShiftCell::WordSign => (made.v >> 31) & 1,
            ShiftCell::WordRest => (made.v >> 16) & 0x7fff,
        }
    }
}

/// The columns in order.
pub const CELLS: [ShiftCell; 30] = [
    ShiftCell::Selector,
    ShiftCell::Operation,
    ShiftCell::FirstDigit(0),
    ShiftCell::FirstDigit(1),
    ShiftCell::FirstDigit(2),
    ShiftCell::FirstDigit(3),
    ShiftCell::SecondHigh,
    ShiftCell::Amount,
    ShiftCell::QuotientLow,
    ShiftCell::QuotientHigh,
    ShiftCell::Right,
    ShiftCell::Signed,
    ShiftCell::Wide,
    ShiftCell::AtPlace(0),
    ShiftCell::AtPlace(1),
    ShiftCell::AtPlace(2),
    ShiftCell::AtPlace(3),
    ShiftCell::Times,
    ShiftCell::Sign,
    ShiftCell::BelowSign,
    ShiftCell::HighPart(0),
    ShiftCell::HighPart(1),
    ShiftCell::HighPart(2),
    ShiftCell::HighPart(3),
    ShiftCell::LowPart(0),
    ShiftCell::LowPart(1),
    ShiftCell::LowPart(2),
    ShiftCell::LowPart(3),
    ShiftCell::WordSign,
    ShiftCell::WordRest,
];
