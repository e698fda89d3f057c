//! The cells of a row of Arith.
ghost use Rattle.std.specs.Prelude.{◌≡◌, ◌≤◌, ◌==◌, ◌&&◌};
ghost use Rattle.step_rows.specs.Words.{digit};
ghost use Rattle.step_rows.specs.ArithRow.{is_quotient, n_of, zb_of, g_of, kg_of, k1_of, k2_of, top_digit};
ghost use Rattle.arith_rows.specs.Cells.{low_turn, high_turn};

use crate::carrying::carry_at;
use crate::made::{Made, kn_of, result_sign, result_size};
use crate::sizes::{is_division, is_quotient, sign_bit};
use row_columns::{Cell, digit, flag};

/// A column of Arith.
#[derive(Clone, Copy, Debug, PartialEq, Eq)]
pub enum ArithCell {
    Selector,
    /// Whether the operation has this number.
    IsOperation(u32),
    FirstDigit(u32),
    SecondDigit(u32),
    /// A digit of the first factor: the first magnitude, or the quotient.
    FactorDigit(u32),
    /// A digit of the second magnitude.
    SizeDigit(u32),
    /// A digit of the remainder.
    RestDigit(u32),
    /// A digit of the product with the rest.
    SumDigit(u32),
    CarryLow(u32),
    CarryHigh(u32),
    /// An operand's sign, and the rest of the digit that has it.
    FirstSign,
    FirstRest,
    SecondSign,
    SecondRest,
    /// The carry of an operand that is turned.
    FirstTurn,
    SecondTurn,
    /// Whether the low half of a product isn't 0, and the sum of its digits less 1.
    LowIsSome,
    ExcessLow,
    ExcessHigh,
    ByZero,
    /// How far the remainder is below the divisor, and the carry of that.
    GapDigit(u32),
    GapCarry,
    ResultDigit(u32),
    /// The carries of a result that is turned.
    LowTurn,
    HighTurn,
    /// The highest bit of the result's low limb, and the rest of the digit.
    WordSign,
    WordRest,
}

// A digit of 128 bits.
#[inline(always)]
#[tactic(auto, using(crate::proofs::Signs::past))]
fn wide_digit(w: u128, i: u32) -> u64
    ensures value { result ≡ digit w i }
    ensures below { result ≤ 65535 }
{
    if i < 8 {
        ((w >> (16 * i)) & 0xffff) as u64
    } else {
        0
    }
}

#[inline(always)]
fn top_digit(n: u8, v: u64) -> u64
    ensures value { result ≡ top_digit n v }
    ensures below { result ≤ 65535 }
{
    if n < 8 { digit(v, 3) } else { digit(v, 1) }
}

#[inline(always)]
fn n_of(n: u8, w: u128) -> u64
    ensures value { result ≡ n_of n w }
    ensures below { result ≤ 262140 }
{
    if kn_of(n, w) == 0 {
        0
    } else {
        (wide_digit(w, 0) + wide_digit(w, 1) + wide_digit(w, 2) + wide_digit(w, 3)).saturating_sub(
            1,
        )
    }
}

#[inline(always)]
fn zb_of(n: u8, v: u64) -> u64
    ensures value { result ≡ zb_of n v }
    ensures below { result ≤ 1 }
{
    u64::from(is_division(n) && v == 0)
}

#[inline(always)]
fn g_of(n: u8, v: u64, r: u64) -> u64
    ensures { result ≡ g_of n v r }
{
    if is_division(n) {
        v.saturating_sub(r).saturating_sub(1)
    } else {
        0
    }
}

#[inline(always)]
fn kg_of(n: u8, v: u64, r: u64) -> u64
    ensures value { result ≡ kg_of n v r }
    ensures below { result ≤ 1 }
{
    if is_division(n) && v != 0 {
        ((r & 0xffff_ffff) + (g_of(n, v, r) & 0xffff_ffff) + 1) >> 32
    } else {
        0
    }
}

#[inline(always)]
#[tactic(auto, using(crate::proofs::Signs::signs))]
fn k1_of(sign: u8, size: u64, z: u64, kn: u8) -> u64
    requires { kn ≤ 1 }
    ensures value { result ≡ k1_of sign size z kn }
    ensures below { result ≤ 1 }
{
    if sign == 0 {
        0
    } else {
        ((size & 0xffff_ffff) + (z & 0xffff_ffff) + u64::from(kn)) >> 32
    }
}

#[inline(always)]
#[tactic(auto, using(crate::proofs::Signs::signs))]
fn k2_of(sign: u8, size: u64, z: u64, kn: u8) -> u64
    requires { kn ≤ 1 }
    ensures value { result ≡ k2_of sign size z kn }
    ensures below { result ≤ 1 }
{
    if sign == 0 {
        0
    } else {
        ((size >> 32) + (z >> 32) + k1_of(sign, size, z, kn)) >> 32
    }
}

// Whether a quotient by zero is made, which has no carries.
#[inline(always)]
fn is_quotient_by_zero(made: &Made) -> bool
    ensures { result ≡ (is_quotient made.now.of.number && (made.now.of.v == 0)) }
{
    is_quotient(made.of.number) && made.of.v == 0
}

#[inline(always)]
fn low_turn(made: &Made) -> u64
    ensures value { result ≡ low_turn made.now }
    ensures below { result ≤ 1 }
{
    let o = &made.of;
    if is_quotient_by_zero(made) {
        return 0;
    }
    let size = result_size(o.number, made.x, made.r, made.w);
    k1_of(
        result_sign(o.number, o.s, o.t),
        size,
        made.z,
        kn_of(o.number, made.w),
    )
}

#[inline(always)]
fn high_turn(made: &Made) -> u64
    ensures value { result ≡ high_turn made.now }
    ensures below { result ≤ 1 }
{
    let o = &made.of;
    if is_quotient_by_zero(made) {
        return 0;
    }
    let size = result_size(o.number, made.x, made.r, made.w);
    k2_of(
        result_sign(o.number, o.s, o.t),
        size,
        made.z,
        kn_of(o.number, made.w),
    )
}

impl Cell<Made> for ArithCell {
    ghost use Rattle.arith_rows.specs.Cells.{cell_of};

    ghost value = { cell_of };

    #[inline(always)]
    #[tactic(auto, unfolding(crate::specs::Cells::cell_of))]
    fn of(self, made: &Made) -> u64 {
        let o = &made.of;
        match self {
            ArithCell::Selector => 1,
            ArithCell::IsOperation(k) => flag(u32::from(o.number), k),
            ArithCell::FirstDigit(i) => digit(o.a, i),
            ArithCell::SecondDigit(i) => digit(o.b, i),
            ArithCell::FactorDigit(i) => digit(made.x, i),
            ArithCell::SizeDigit(i) => digit(o.v, i),
            ArithCell::RestDigit(i) => digit(made.r, i),
            ArithCell::SumDigit(i) => wide_digit(made.w, i),
            ArithCell::CarryLow(i) => carry_at(&made.carries, i) & 0xffff,
            ArithCell::CarryHigh(i) => carry_at(&made.carries, i) >> 16,
            ArithCell::FirstSign => u64::from(sign_bit(o.number, o.a)),
            ArithCell::FirstRest => top_digit(o.number, o.a) & 0x7fff,
            ArithCell::SecondSign => u64::from(sign_bit(o.number, o.b)),
            ArithCell::SecondRest => top_digit(o.number, o.b) & 0x7fff,
            ArithCell::FirstTurn => u64::from(o.first_turn),
            ArithCell::SecondTurn => u64::from(o.second_turn),
            ArithCell::LowIsSome => u64::from(kn_of(o.number, made.w)),
            ArithCell::ExcessLow => n_of(o.number, made.w) & 0xffff,
            ArithCell::ExcessHigh => n_of(o.number, made.w) >> 16,
            ArithCell::ByZero => zb_of(o.number, o.v),
            ArithCell::GapDigit(i) => digit(g_of(o.number, o.v, made.r), i),
            ArithCell::GapCarry => kg_of(o.number, o.v, made.r),
            ArithCell::ResultDigit(i) => digit(made.z, i),
            ArithCell::LowTurn => low_turn(made),
            ArithCell::HighTurn => high_turn(made),
            ArithCell::WordSign => (made.z >> 31) & 1,
            ArithCell::WordRest => (made.z >> 16) & 0x7fff,
        }
    }
}

/// The columns in order.
pub const CELLS: [ArithCell; 79] = [
    ArithCell::Selector,
    ArithCell::IsOperation(0),
    ArithCell::IsOperation(1),
    ArithCell::IsOperation(2),
    ArithCell::IsOperation(3),
    ArithCell::IsOperation(4),
    ArithCell::IsOperation(5),
    ArithCell::IsOperation(6),
    ArithCell::IsOperation(7),
    ArithCell::IsOperation(8),
    ArithCell::IsOperation(9),
    ArithCell::IsOperation(10),
    ArithCell::IsOperation(11),
    ArithCell::IsOperation(12),
    ArithCell::FirstDigit(0),
    ArithCell::FirstDigit(1),
    ArithCell::FirstDigit(2),
    ArithCell::FirstDigit(3),
    ArithCell::SecondDigit(0),
    ArithCell::SecondDigit(1),
    ArithCell::SecondDigit(2),
    ArithCell::SecondDigit(3),
    ArithCell::FactorDigit(0),
    ArithCell::FactorDigit(1),
    ArithCell::FactorDigit(2),
    ArithCell::FactorDigit(3),
    ArithCell::SizeDigit(0),
    ArithCell::SizeDigit(1),
    ArithCell::SizeDigit(2),
    ArithCell::SizeDigit(3),
    ArithCell::RestDigit(0),
    ArithCell::RestDigit(1),
    ArithCell::RestDigit(2),
    ArithCell::RestDigit(3),
    ArithCell::SumDigit(0),
    ArithCell::SumDigit(1),
    ArithCell::SumDigit(2),
    ArithCell::SumDigit(3),
    ArithCell::SumDigit(4),
    ArithCell::SumDigit(5),
    ArithCell::SumDigit(6),
    ArithCell::SumDigit(7),
    ArithCell::CarryLow(0),
    ArithCell::CarryLow(1),
    ArithCell::CarryLow(2),
    ArithCell::CarryLow(3),
    ArithCell::CarryLow(4),
    ArithCell::CarryLow(5),
    ArithCell::CarryLow(6),
    ArithCell::CarryHigh(0),
    ArithCell::CarryHigh(1),
    ArithCell::CarryHigh(2),
    ArithCell::CarryHigh(3),
    ArithCell::CarryHigh(4),
    ArithCell::CarryHigh(5),
    ArithCell::CarryHigh(6),
    ArithCell::FirstSign,
    ArithCell::FirstRest,
    ArithCell::SecondSign,
    ArithCell::SecondRest,
    ArithCell::FirstTurn,
    ArithCell::SecondTurn,
    ArithCell::LowIsSome,
    ArithCell::ExcessLow,
    ArithCell::ExcessHigh,
    ArithCell::ByZero,
    ArithCell::GapDigit(0),
    ArithCell::GapDigit(1),
    ArithCell::GapDigit(2),
    ArithCell::GapDigit(3),
    ArithCell::GapCarry,
    ArithCell::ResultDigit(0),
    ArithCell::ResultDigit(1),
    ArithCell::ResultDigit(2),
    ArithCell::ResultDigit(3),
    ArithCell::LowTurn,
    ArithCell::HighTurn,
    ArithCell::WordSign,
    ArithCell::WordRest,
];
