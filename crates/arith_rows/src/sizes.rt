//! The operands of a product or a division, with their signs and magnitudes. MUL, MULH, MULHSU, MULHU, DIV, DIVU, REM, REMU,
//! MULW, DIVW, DIVUW, REMW, REMUW have the numbers from 0 to 12.
ghost use Rattle.std.specs.Prelude.{◌≡◌, ◌≤◌};
ghost use Rattle.step_rows.specs.ArithRow.{is_high, is_quotient, is_remainder, is_division, sign_bit, first_sign, second_sign, used, size, carry_of};
ghost use Rattle.arith_rows.specs.Cells.{sizes};

#[inline(always)]
pub fn is_high(n: u8) -> bool
    ensures { result ≡ is_high n }
{
    matches!(n, 1 | 2 | 3)
}

#[inline(always)]
pub fn is_quotient(n: u8) -> bool
    ensures { result ≡ is_quotient n }
{
    matches!(n, 4 | 5 | 9 | 10)
}

#[inline(always)]
pub fn is_remainder(n: u8) -> bool
    ensures { result ≡ is_remainder n }
{
    matches!(n, 6 | 7 | 11 | 12)
}

#[inline(always)]
pub fn is_division(n: u8) -> bool
    ensures { result ≡ is_division n }
{
    is_quotient(n) || is_remainder(n)
}

/// The operands, their signs of 0 or 1, and their magnitudes as the operation uses them.
#[derive(Clone, Copy, Debug, PartialEq, Eq)]
pub struct Sizes {
    pub number: u8,
    pub a: u64,
    pub b: u64,
    pub s: u8,
    pub t: u8,
    pub u: u64,
    pub v: u64,
    /// What is carried where an operand is turned into its magnitude.
    pub first_turn: u8,
    pub second_turn: u8,
}

/// The sign bit of an operand.
#[inline(always)]
pub fn sign_bit(n: u8, v: u64) -> u8
    ensures value { result ≡ sign_bit n v }
    ensures below { result ≤ 1 }
{
    if n < 8 {
        (v >> 63) as u8
    } else {
        ((v >> 31) & 1) as u8
    }
}

#[inline(always)]
fn first_sign(n: u8, a: u64) -> u8
    ensures value { result ≡ first_sign n a }
    ensures below { result ≤ 1 }
    ensures set { result ≤ sign_bit n a }
{
    if matches!(n, 1 | 2 | 4 | 6 | 9 | 11) {
        sign_bit(n, a)
    } else {
        0
    }
}

#[inline(always)]
fn second_sign(n: u8, b: u64) -> u8
    ensures value { result ≡ second_sign n b }
    ensures below { result ≤ 1 }
    ensures set { result ≤ sign_bit n b }
{
    if matches!(n, 1 | 4 | 6 | 9 | 11) {
        sign_bit(n, b)
    } else {
        0
    }
}

/// An operand as it is used: on 32 bits, extended by its sign.
#[inline(always)]
pub fn used(n: u8, s: u8, v: u64) -> u64
    requires { s ≤ 1 }
    ensures { result ≡ used n s v }
{
    if n < 8 {
        v
    } else {
        (v & 0xffff_ffff) + 0xffff_ffff_0000_0000 * u64::from(s)
    }
}

// The magnitude of an operand.
#[inline(always)]
#[tactic(auto, using(crate::proofs::Signs::signs))]
fn size(n: u8, s: u8, v: u64) -> u64
    requires below { s ≤ 1 }
    requires set { s ≤ sign_bit n v }
    ensures { result ≡ size s (used n s v) }
{
    let value = used(n, s, v);
    if s == 0 {
        value
    } else {
        0u64.wrapping_sub(value)
    }
}

// The carry of an operand that is turned.
#[inline(always)]
#[tactic(auto, using(crate::proofs::Signs::signs))]
fn carry_of(sign: u8, size: u64, value: u64) -> u8
    ensures value { result ≡ carry_of sign size value }
    ensures below { result ≤ 1 }
{
    if sign == 0 {
        0
    } else {
        (((size & 0xffff_ffff) + (value & 0xffff_ffff)) >> 32) as u8
    }
}

/// The operands of the operation of this number.
#[inline(always)]
pub fn sizes_of(n: u8, a: u64, b: u64) -> Sizes
    ensures { result ≡ sizes n a b }
{
    let (s, t) = (first_sign(n, a), second_sign(n, b));
    let (u, v) = (size(n, s, a), size(n, t, b));
    Sizes {
        number: n,
        a,
        b,
        s,
        t,
        u,
        v,
        first_turn: carry_of(s, u, used(n, s, a)),
        second_turn: carry_of(t, v, used(n, t, b)),
    }
}
