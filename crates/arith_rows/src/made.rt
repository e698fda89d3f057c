//! What a row of Arith is made of.
ghost use Rattle.std.specs.Prelude.{◌≡◌, ◌≤◌, ◌+◌, ◌*◌};
ghost use Rattle.step_rows.specs.ArithRow.{x_of, r_of, kn_of, differ, result_sign, result_size, turned, z_of};
ghost use Rattle.arith_rows.specs.Cells.{made};

use crate::carrying::{Carries, carries_of};
use crate::sizes::{Sizes, is_division, is_high, is_quotient, is_remainder, sizes_of};
use min_trace::{StepRecord, uw_of};
use run_rows::FromStep;
use rv_model::operand;

/// A product or a division of magnitudes: x * v + r = w, and the result. In a division x is the quotient and r the remainder.
#[derive(Clone, Copy, Debug, PartialEq, Eq)]
pub struct Made {
    pub of: Sizes,
    pub x: u64,
    pub r: u64,
    pub w: u128,
    pub z: u64,
    pub carries: Carries,
}

#[inline(always)]
fn x_of(n: u8, u: u64, v: u64) -> u64
    ensures { result ≡ x_of n u v }
{
    if !is_division(n) {
        u
    } else if v == 0 {
        0
    } else {
        u / v
    }
}

#[inline(always)]
fn r_of(n: u8, u: u64, v: u64) -> u64
    ensures { result ≡ r_of n u v }
{
    if !is_division(n) {
        0
    } else if v == 0 {
        u
    } else {
        u % v
    }
}

#[inline(always)]
fn sum_of(x: u64, v: u64, r: u64) -> u128
    ensures { result ≡ x * v + r }
{
    x as u128 * v as u128 + r as u128
}

/// Whether the low half of a product isn't 0, where the high half is asked.
#[inline(always)]
pub fn kn_of(n: u8, w: u128) -> u8
    ensures value { result ≡ kn_of n w }
    ensures below { result ≤ 1 }
{
    u8::from(is_high(n) && w & 0xffff_ffff_ffff_ffff != 0)
}

// Of two signs, whether they differ.
#[inline(always)]
#[tactic(auto, using(crate::proofs::Signs::signs))]
fn differ(s: u8, t: u8) -> u8
    ensures { result ≡ differ s t }
{
    if s == 0 {
        t
    } else if t == 0 {
        1
    } else {
        0
    }
}

/// The sign of the result.
#[inline(always)]
pub fn result_sign(n: u8, s: u8, t: u8) -> u8
    ensures { result ≡ result_sign n s t }
{
    if is_remainder(n) {
        s
    } else if is_high(n) || is_quotient(n) {
        differ(s, t)
    } else {
        0
    }
}

/// The magnitude of the result.
#[inline(always)]
pub fn result_size(n: u8, x: u64, r: u64, w: u128) -> u64
    ensures { result ≡ result_size n x r w }
{
    if is_remainder(n) {
        r
    } else if is_high(n) {
        (w >> 64) as u64
    } else if is_quotient(n) {
        x
    } else {
        (w & 0xffff_ffff_ffff_ffff) as u64
    }
}

#[inline(always)]
#[tactic(auto, using(crate::proofs::Signs::signs))]
fn turned(sign: u8, size: u64, kn: u8) -> u64
    requires { kn ≤ 1 }
    ensures { result ≡ turned sign size kn }
{
    if sign == 0 {
        size
    } else {
        0u64.wrapping_sub(size).wrapping_sub(u64::from(kn))
    }
}

#[inline(always)]
fn z_of(o: &Sizes, x: u64, r: u64, w: u128) -> u64
    ensures { result ≡ z_of o.now.number o.now.v (result_sign o.now.number o.now.s o.now.t) (result_size o.now.number x r w) (kn_of o.now.number w) }
{
    if is_quotient(o.number) && o.v == 0 {
        u64::MAX
    } else {
        let sign = result_sign(o.number, o.s, o.t);
        turned(sign, result_size(o.number, x, r, w), kn_of(o.number, w))
    }
}

#[inline(always)]
fn made_of(o: Sizes) -> Made
    ensures { result ≡ made o }
{
    let (x, r) = (x_of(o.number, o.u, o.v), r_of(o.number, o.u, o.v));
    let w = sum_of(x, o.v, r);
    Made {
        of: o,
        x,
        r,
        w,
        z: z_of(&o, x, r, w),
        carries: carries_of(x, o.v, r),
    }
}

impl FromStep for Made {
    ghost use Rattle.arith_rows.specs.Cells.{made_by};

    ghost taken = { made_by };

    #[inline(always)]
    fn from_step(step: &StepRecord) -> Made {
        let number = step.op.number().saturating_sub(17);
        let first = operand(uw_of(&step.instr), step.a);
        made_of(sizes_of(number, first, step.b))
    }
}
