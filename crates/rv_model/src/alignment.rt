//! Loads and stores within a doubleword (RISC-V Unprivileged ISA, "Load and Store Instructions").
ghost use Rattle.std.specs.Prelude.{◌≡◌, ◌+◌, ◌*◌, ◌/◌, ◌%◌, ◌<◌, ◌≤◌, ◌^◌};
ghost use Rattle.rv_model.specs.Align.{width, part, put, aligned};

use rv_word::Kind;

/// How many bytes are moved.
#[inline(always)]
pub fn width_of(kind: Kind) -> u64
    ensures value { result ≡ width kind }
    ensures positive { 0 < result }
{
    match kind {
        Kind::Lb | Kind::Lbu | Kind::Sb => 1,
        Kind::Lh | Kind::Lhu | Kind::Sh => 2,
        Kind::Lw | Kind::Lwu | Kind::Sw => 4,
        Kind::Ld | Kind::Sd => 8,
    }
}

#[inline(always)]
fn part_of(n: u32, off: u8, old: u64) -> u64
    requires off { off < 8 }
    requires n { n < 8 }
    ensures value { result ≡ part n off old }
    ensures below { result < 2 ^ (8 * n) }
{
    (old >> (8 * u32::from(off))) % (1 << (8 * n))
}

#[inline(always)]
fn with_part(n: usize, off: u8, old: u64, value: u64) -> u64
    requires { off + n ≤ 8 }
    ensures { result ≡ put n off old value }
{
    let at = off as usize;
    let mut bytes = old.to_le_bytes();
    bytes[at..at + n].copy_from_slice(&value.to_le_bytes()[..n]);
    u64::from_le_bytes(bytes)
}

/// For a load what comes into the register: the bytes of `old` from the byte `off` on, filled up with the sign or with
/// zeros. For a store the new doubleword: `old` with the low bytes of `value` written at `off`.
#[inline(always)]
#[tactic(auto, unfolding(crate::specs::Align::aligned))]
pub fn align(kind: Kind, off: u8, old: u64, value: u64) -> u64
    requires below { off < 8 }
    requires multiple { off % width kind ≡ 0 }
    ensures { result ≡ aligned kind off old value }
{
    match kind {
        Kind::Lb => i64::from((part_of(1, off, old) as u8).cast_signed()).cast_unsigned(),
        Kind::Lh => i64::from((part_of(2, off, old) as u16).cast_signed()).cast_unsigned(),
        Kind::Lw => i64::from((part_of(4, off, old) as u32).cast_signed()).cast_unsigned(),
        Kind::Ld => old,
        Kind::Lbu => part_of(1, off, old),
        Kind::Lhu => part_of(2, off, old),
        Kind::Lwu => part_of(4, off, old),
        Kind::Sb => with_part(1, off, old, value),
        Kind::Sh => with_part(2, off, old, value),
        Kind::Sw => with_part(4, off, old, value),
        Kind::Sd => value,
    }
}
