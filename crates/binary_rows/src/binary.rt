//! What a row of Binary is made of, and its cells.
ghost use Rattle.std.specs.Prelude.{◌≡◌, ◌≤◌, sum};
ghost use Rattle.std.specs.Int.{to_le_bytes, w64};
ghost use Rattle.step_rows.specs.Words.{digits};
ghost use Rattle.step_rows.specs.BinaryRow.{subtracts, scales, factor, worked, low_borrow, high_borrow, low_carry, high_carry, k0_of, k1_of, j0_of, j1_of, tells, left_over};
ghost use Rattle.binary_rows.specs.BinaryCells.{computed};

use min_trace::{StepRecord, uw_of};
use row_columns::{Cell, byte, digit, flag};
use run_rows::FromStep;
use rv_model::operand;
use rv_word::OpNo;

/// An operation on two numbers, and what it comes to.
#[derive(Clone, Copy, Debug, PartialEq, Eq)]
pub struct Computed {
    /// The operation's number.
    pub op: u32,
    pub a: u64,
    pub b: u64,
    /// The sum, or the difference.
    pub z: u64,
    /// What is carried out of its low limb and of all of it, or borrowed from them.
    pub k0: u32,
    pub k1: u32,
    /// What is carried where the first operand has a factor.
    pub j0: u32,
    pub j1: u32,
    /// Whether EQ's operands are equal, and for CZEQZ and CZNEZ whether the second is 0.
    pub eq: u32,
    /// By how much they aren't: the sum of the difference's digits, or of the second operand's bytes, less 1.
    pub excess: u32,
}

#[inline(always)]
fn subtracts(op: OpNo) -> bool
    ensures { result ≡ subtracts op }
{
    matches!(op, OpNo::Sub | OpNo::Ltu | OpNo::Lt | OpNo::Eq | OpNo::Subw)
}

#[inline(always)]
fn scales(op: OpNo) -> bool
    ensures { result ≡ scales op }
{
    matches!(op, OpNo::Sh1add | OpNo::Sh2add | OpNo::Sh3add)
}

#[inline(always)]
fn factor(op: OpNo) -> u64
    ensures value { result ≡ factor op }
    ensures small { result ≤ 8 }
{
    match op {
        OpNo::Sh1add => 2,
        OpNo::Sh2add => 4,
        OpNo::Sh3add => 8,
        _ => 1,
    }
}

#[inline(always)]
fn worked(op: OpNo, a: u64, b: u64) -> u64
    ensures { result ≡ worked op a b }
{
    if subtracts(op) {
        a.wrapping_sub(b)
    } else {
        factor(op).wrapping_mul(a).wrapping_add(b)
    }
}

// What is carried out of the low limbs of a sum, and out of all of it, where the first operand has a factor.
#[inline(always)]
fn low_carry(m: u64, a: u64, b: u64) -> u64
    requires { m ≤ 8 }
    ensures value { result ≡ low_carry m a b }
    ensures small { result ≤ 8 }
{
    (m * (a & 0xffff_ffff) + (b & 0xffff_ffff)) >> 32
}

#[inline(always)]
fn high_carry(m: u64, a: u64, b: u64) -> u64
    requires { m ≤ 8 }
    ensures value { result ≡ high_carry m a b }
    ensures small { result ≤ 8 }
{
    (m * (a >> 32) + (b >> 32) + low_carry(m, a, b)) >> 32
}

// The borrows, or the carries of a sum without a factor.
#[inline(always)]
fn k0_of(op: OpNo, a: u64, b: u64) -> u32
    ensures { result ≡ k0_of op a b }
{
    if subtracts(op) {
        u32::from(a & 0xffff_ffff < b & 0xffff_ffff)
    } else if scales(op) {
        0
    } else {
        low_carry(1, a, b) as u32
    }
}

#[inline(always)]
fn k1_of(op: OpNo, a: u64, b: u64) -> u32
    ensures { result ≡ k1_of op a b }
{
    if subtracts(op) {
        u32::from(a < b)
    } else if scales(op) {
        0
    } else {
        high_carry(1, a, b) as u32
    }
}

#[inline(always)]
fn j0_of(op: OpNo, a: u64, b: u64) -> u32
    ensures { result ≡ j0_of op a b }
{
    if scales(op) {
        low_carry(factor(op), a, b) as u32
    } else {
        0
    }
}

#[inline(always)]
fn j1_of(op: OpNo, a: u64, b: u64) -> u32
    ensures { result ≡ j1_of op a b }
{
    if scales(op) {
        high_carry(factor(op), a, b) as u32
    } else {
        0
    }
}

#[inline(always)]
fn tells(op: OpNo, a: u64, b: u64) -> u32
    ensures { result ≡ tells op a b }
{
    match op {
        OpNo::Eq => u32::from(a == b),
        OpNo::Czeqz | OpNo::Cznez => u32::from(b == 0),
        _ => 0,
    }
}

#[inline(always)]
fn digit_sum(v: u64) -> u64
    ensures value { result ≡ sum (digits v 0 4) }
    ensures small { result ≤ 262140 }
{
    digit(v, 0) + digit(v, 1) + digit(v, 2) + digit(v, 3)
}

#[inline(always)]
fn byte_sum(v: u64) -> u64
    ensures value { result ≡ sum (to_le_bytes w64 v) }
    ensures small { result ≤ 2040 }
{
    byte(v, 0)
        + byte(v, 1)
        + byte(v, 2)
        + byte(v, 3)
        + byte(v, 4)
        + byte(v, 5)
        + byte(v, 6)
        + byte(v, 7)
}

#[inline(always)]
fn excess(op: OpNo, a: u64, b: u64) -> u32
    ensures { result ≡ left_over op a b }
{
    match op {
        OpNo::Eq => digit_sum(worked(OpNo::Eq, a, b)).saturating_sub(1) as u32,
        OpNo::Czeqz | OpNo::Cznez => byte_sum(b).saturating_sub(1) as u32,
        _ => 0,
    }
}

#[inline(always)]
fn outcome(op: OpNo, a: u64, b: u64) -> Computed
    ensures { result ≡ computed op a b }
{
    Computed {
        op: u32::from(op.number()),
        a,
        b,
        z: worked(op, a, b),
        k0: k0_of(op, a, b),
        k1: k1_of(op, a, b),
        j0: j0_of(op, a, b),
        j1: j1_of(op, a, b),
        eq: tells(op, a, b),
        excess: excess(op, a, b),
    }
}

impl FromStep for Computed {
    ghost use Rattle.binary_rows.specs.BinaryCells.{computed_by};

    ghost taken = { computed_by };

    #[inline(always)]
    fn from_step(step: &StepRecord) -> Computed {
        outcome(step.op, operand(uw_of(&step.instr), step.a), step.b)
    }
}

/// A column of Binary.
#[derive(Clone, Copy, Debug, PartialEq, Eq)]
pub enum BinaryCell {
    Selector,
    /// Whether the operation has this number.
    IsOperation(u32),
    FirstByte(u32),
    SecondByte(u32),
    /// A byte of the bitwise and.
    AndByte(u32),
    /// A digit of the sum or the difference.
    SumDigit(u32),
    LowCarry,
    HighCarry,
    LowScaled,
    HighScaled,
    /// The highest bit of the first operand, and the rest of its highest byte.
    FirstSign,
    FirstRest,
    SecondSign,
    SecondRest,
    /// The highest bit of the low limb of the sum or the difference, and the rest of the digit.
    WordSign,
    WordRest,
    Equal,
    ExcessLow,
    ExcessHigh,
}

impl Cell<Computed> for BinaryCell {
    ghost use Rattle.binary_rows.specs.BinaryCells.{cell_of};

    ghost value = { cell_of };

    #[inline(always)]
    #[tactic(auto, unfolding(crate::specs::BinaryCells::cell_of))]
    fn of(self, made: &Computed) -> u64 {
        match self {
            BinaryCell::Selector => 1,
            BinaryCell::IsOperation(k) => flag(made.op, k),
            BinaryCell::FirstByte(i) => byte(made.a, i),
            BinaryCell::SecondByte(i) => byte(made.b, i),
            BinaryCell::AndByte(i) => byte(made.a, i) & byte(made.b, i),
            BinaryCell::SumDigit(i) => digit(made.z, i),
            BinaryCell::LowCarry => u64::from(made.k0),
            BinaryCell::HighCarry => u64::from(made.k1),
            BinaryCell::LowScaled => u64::from(made.j0),
            BinaryCell::HighScaled => u64::from(made.j1),
            BinaryCell::FirstSign => made.a >> 63,
            BinaryCell::FirstRest => (made.a >> 56) & 0x7f,
            BinaryCell::SecondSign => made.b >> 63,
            BinaryCell::SecondRest => (made.b >> 56) & 0x7f,
            BinaryCell::WordSign => (made.z >> 31) & 1,
            BinaryCell::WordRest => (made.z >> 16) & 0x7fff,
            BinaryCell::Equal => u64::from(made.eq),
            BinaryCell::ExcessLow => u64::from(made.excess & 0xffff),
            BinaryCell::ExcessHigh => u64::from(made.excess >> 16),
        }
    }
}

/// The columns in order.
pub const CELLS: [BinaryCell; 57] = [
    BinaryCell::Selector,
    BinaryCell::IsOperation(1),
    BinaryCell::IsOperation(2),
    BinaryCell::IsOperation(3),
    BinaryCell::IsOperation(4),
    BinaryCell::IsOperation(5),
    BinaryCell::IsOperation(6),
    BinaryCell::IsOperation(7),
    BinaryCell::IsOperation(8),
    BinaryCell::IsOperation(9),
    BinaryCell::IsOperation(10),
    BinaryCell::IsOperation(30),
    BinaryCell::IsOperation(31),
    BinaryCell::IsOperation(32),
    BinaryCell::IsOperation(33),
    BinaryCell::IsOperation(34),
    BinaryCell::FirstByte(0),
    BinaryCell::FirstByte(1),
    BinaryCell::FirstByte(2),
    BinaryCell::FirstByte(3),
    BinaryCell::FirstByte(4),
    BinaryCell::FirstByte(5),
    BinaryCell::FirstByte(6),
    BinaryCell::FirstByte(7),
    BinaryCell::SecondByte(0),
    BinaryCell::SecondByte(1),
    BinaryCell::SecondByte(2),
    BinaryCell::SecondByte(3),
    BinaryCell::SecondByte(4),
    BinaryCell::SecondByte(5),
    BinaryCell::SecondByte(6),
    BinaryCell::SecondByte(7),
    BinaryCell::AndByte(0),
    BinaryCell::AndByte(1),
    BinaryCell::AndByte(2),
    BinaryCell::AndByte(3),
    BinaryCell::AndByte(4),
    BinaryCell::AndByte(5),
    BinaryCell::AndByte(6),
    BinaryCell::AndByte(7),
    BinaryCell::SumDigit(0),
    BinaryCell::SumDigit(1),
    BinaryCell::SumDigit(2),
    BinaryCell::SumDigit(3),
    BinaryCell::LowCarry,
    BinaryCell::HighCarry,
    BinaryCell::LowScaled,
    BinaryCell::HighScaled,
    BinaryCell::FirstSign,
    BinaryCell::FirstRest,
    BinaryCell::SecondSign,
    BinaryCell::SecondRest,
    BinaryCell::WordSign,
    BinaryCell::WordRest,
    BinaryCell::Equal,
    BinaryCell::ExcessLow,
    BinaryCell::ExcessHigh,
];
