//! The operations on 64-bit numbers (RISC-V Unprivileged ISA, "RV32I", "RV64I" and "M"; Zba, "Address generation
//! instructions"; Zicond, "Integer Conditional Operations").
ghost use Rattle.std.specs.Prelude.{if◌then◌else◌, ◌≡◌, ℕ, ◌+◌, ◌-◌, ◌*◌, ◌/◌, ◌%◌, ◌<◌, ◌≤◌, ◌^◌, ◌≢◌};
ghost use Rattle.std.specs.Prelude.{pos, int_lt, int_div, neg_ℤ, ◌≤ℤ◌, ◌<ℤ◌, ◌*ℤ◌};
ghost use Rattle.std.specs.Int.{int_shr};
ghost use Rattle.rv_model.specs.Op.{value_of, flag_of, word, signed, signed_low, bits_of};

use rv_word::OpNo;

fn low(a: u64) -> u32
    ensures { result ≡ a % 2 ^ 32 }
{
    (a % (1 << 32)) as u32
}

// 32 bits, filled up with their sign.
fn extended(n: u32) -> u64
    ensures { result ≡ word n }
{
    i64::from(n.cast_signed()).cast_unsigned()
}

fn add_word(a: u64, b: u64) -> u64
    ensures { result ≡ word (a + b) }
{
    extended(low(a.wrapping_add(b)))
}

fn sub_word(a: u64, b: u64) -> u64
    ensures { result ≡ word (a + (2 ^ 64 - b)) }
{
    extended(low(a.wrapping_sub(b)))
}

#[tactic(auto, unfolding(crate::specs::Op::value_of))]
fn shift_right_signed(a: u64, b: u64) -> u64
    ensures { result ≡ value_of OpNo.Sra a b }
{
    (a.cast_signed() >> (b % 64)).cast_unsigned()
}

#[tactic(auto, unfolding(crate::specs::Op::value_of))]
fn shift_left_word(a: u64, b: u64) -> u64
    ensures { result ≡ value_of OpNo.Sllw a b }
{
    extended(low(a) << (b % 32))
}

#[tactic(auto, unfolding(crate::specs::Op::value_of))]
fn shift_right_word(a: u64, b: u64) -> u64
    ensures { result ≡ value_of OpNo.Srlw a b }
{
    extended(low(a) >> (b % 32))
}

#[tactic(auto, unfolding(crate::specs::Op::value_of))]
fn shift_right_signed_word(a: u64, b: u64) -> u64
    ensures { result ≡ value_of OpNo.Sraw a b }
{
    i64::from(low(a).cast_signed() >> (b % 32)).cast_unsigned()
}

#[tactic(auto, unfolding(crate::specs::Op::value_of))]
fn mul_word(a: u64, b: u64) -> u64
    ensures { result ≡ value_of OpNo.Mulw a b }
{
    extended(low(a.wrapping_mul(b)))
}

// A number of 64 bits, read with a sign.
fn wide(a: u64) -> i128
    ensures value { result ≡ signed a }
    ensures least { neg_ℤ (pos (2 ^ 63)) ≤ℤ result }
    ensures most { result <ℤ pos (2 ^ 63) }
{
    i128::from(a.cast_signed())
}

// The bits from the 64th on.
fn high(product: i128) -> u64
    requires least { neg_ℤ (pos (2 ^ 127)) ≤ℤ product }
    requires most { product <ℤ pos (2 ^ 127) }
    ensures { result ≡ bits_of (int_shr product 64) }
{
    ((product >> 64) as i64).cast_unsigned()
}

#[tactic(auto, unfolding(crate::specs::Op::value_of))]
fn mul_high(a: u64, b: u64) -> u64
    ensures { result ≡ value_of OpNo.Mulh a b }
{
    high(wide(a) * wide(b))
}

#[tactic(auto, unfolding(crate::specs::Op::value_of))]
fn mul_high_signed_unsigned(a: u64, b: u64) -> u64
    ensures { result ≡ value_of OpNo.Mulhsu a b }
{
    high(wide(a) * i128::from(b))
}

#[tactic(auto, unfolding(crate::specs::Op::value_of))]
fn mul_high_unsigned(a: u64, b: u64) -> u64
    ensures { result ≡ value_of OpNo.Mulhu a b }
{
    ((u128::from(a) * u128::from(b)) >> 64) as u64
}

#[tactic(auto, unfolding(crate::specs::Op::value_of))]
fn div_signed(a: u64, b: u64) -> u64
    ensures { result ≡ value_of OpNo.Div a b }
{
    if b == 0 {
        u64::MAX
    } else {
        a.cast_signed()
            .wrapping_div(b.cast_signed())
            .cast_unsigned()
    }
}

#[tactic(auto, unfolding(crate::specs::Op::value_of))]
fn rem_signed(a: u64, b: u64) -> u64
    ensures { result ≡ value_of OpNo.Rem a b }
{
    if b == 0 {
        a
    } else {
        a.cast_signed()
            .wrapping_rem(b.cast_signed())
            .cast_unsigned()
    }
}

// The low 32 bits, read with a sign.
fn signed_word(a: u64) -> i64
    ensures value { result ≡ signed_low a }
    ensures least { neg_ℤ (pos (2 ^ 31)) ≤ℤ result }
    ensures most { result <ℤ pos (2 ^ 31) }
{
    i64::from(low(a).cast_signed())
}

// The quotient of the low 32 bits, which is 2^31 where -2^31 is divided by -1.
fn signed_quotient(a: u64, b: u64) -> u64
    requires { b % 2 ^ 32 ≢ 0 }
    ensures { result ≡ bits_of (int_div (signed_low a) (signed_low b)) }
{
    let divisor = low(b);
    if divisor == 0 {
        u64::MAX
    } else {
        (signed_word(a) / signed_word(b)).cast_unsigned()
    }
}

#[tactic(auto, unfolding(crate::specs::Op::value_of))]
fn div_word(a: u64, b: u64) -> u64
    ensures { result ≡ value_of OpNo.Divw a b }
{
    if low(b) == 0 {
        u64::MAX
    } else {
        extended(low(signed_quotient(a, b)))
    }
}

#[tactic(auto, unfolding(crate::specs::Op::value_of))]
fn rem_word(a: u64, b: u64) -> u64
    ensures { result ≡ value_of OpNo.Remw a b }
{
    let divisor = low(b);
    if divisor == 0 {
        extended(low(a))
    } else {
        (signed_word(a) % signed_word(b)).cast_unsigned()
    }
}

#[tactic(auto, unfolding(crate::specs::Op::value_of))]
fn div_unsigned_word(a: u64, b: u64) -> u64
    ensures { result ≡ value_of OpNo.Divuw a b }
{
    let divisor = low(b);
    if divisor == 0 {
        u64::MAX
    } else {
        extended(low(a) / divisor)
    }
}

#[tactic(auto, unfolding(crate::specs::Op::value_of))]
fn rem_unsigned_word(a: u64, b: u64) -> u64
    ensures { result ≡ value_of OpNo.Remuw a b }
{
    let (dividend, divisor) = (low(a), low(b));
    if divisor == 0 {
        extended(dividend)
    } else {
        extended(dividend % divisor)
    }
}

// The second operand and the first one shifted.
fn shift_add(n: u32, a: u64, b: u64) -> u64
    requires { n < 4 }
    ensures { result ≡ (2 ^ n * a + b) % 2 ^ 64 }
{
    (a << n).wrapping_add(b)
}

fn less_signed(a: u64, b: u64) -> bool
    ensures { result ≡ int_lt (signed a) (signed b) }
{
    a.cast_signed() < b.cast_signed()
}

#[inline(always)]
#[tactic(auto, unfolding(crate::specs::Op::value_of))]
fn value(o: OpNo, a: u64, b: u64) -> u64
    ensures { result ≡ value_of o a b }
{
    match o {
        OpNo::Add => a.wrapping_add(b),
        OpNo::Sub => a.wrapping_sub(b),
        OpNo::Ltu => u64::from(a < b),
        OpNo::Lt => u64::from(less_signed(a, b)),
        OpNo::Eq => u64::from(a == b),
        OpNo::And => a & b,
        OpNo::Or => a | b,
        OpNo::Xor => a ^ b,
        OpNo::Addw => add_word(a, b),
        OpNo::Subw => sub_word(a, b),
        OpNo::Sll => a << (b % 64),
        OpNo::Srl => a >> (b % 64),
        OpNo::Sra => shift_right_signed(a, b),
        OpNo::Sllw => shift_left_word(a, b),
        OpNo::Srlw => shift_right_word(a, b),
        OpNo::Sraw => shift_right_signed_word(a, b),
        OpNo::Mul => a.wrapping_mul(b),
        OpNo::Mulh => mul_high(a, b),
        OpNo::Mulhsu => mul_high_signed_unsigned(a, b),
        OpNo::Mulhu => mul_high_unsigned(a, b),
        OpNo::Div => div_signed(a, b),
        OpNo::Divu => if b == 0 { u64::MAX } else { a / b },
        OpNo::Rem => rem_signed(a, b),
        OpNo::Remu => if b == 0 { a } else { a % b },
        OpNo::Mulw => mul_word(a, b),
        OpNo::Divw => div_word(a, b),
        OpNo::Divuw => div_unsigned_word(a, b),
        OpNo::Remw => rem_word(a, b),
        OpNo::Remuw => rem_unsigned_word(a, b),
        OpNo::Sh1add => shift_add(1, a, b),
        OpNo::Sh2add => shift_add(2, a, b),
        OpNo::Sh3add => shift_add(3, a, b),
        OpNo::Czeqz => if b == 0 { 0 } else { a },
        OpNo::Cznez => if b == 0 { a } else { 0 },
    }
}

#[tactic(auto, unfolding(crate::specs::Op::flag_of))]
fn flag(o: OpNo, a: u64, b: u64) -> bool
    ensures { result ≡ flag_of o a b }
{
    match o {
        OpNo::Ltu => a < b,
        OpNo::Lt => less_signed(a, b),
        OpNo::Eq => a == b,
        _ => false,
    }
}

/// The value of the operation, and the flag: what LTU, LT and EQ tell, else false.
#[inline(always)]
pub fn op(o: OpNo, a: u64, b: u64) -> (u64, bool)
    ensures value { result.0 ≡ value_of o a b }
    ensures flag { result.1 ≡ flag_of o a b }
{
    (value(o, a, b), flag(o, a, b))
}
