//! The fields and immediates of a word (RISC-V Unprivileged ISA, 2.2 and 2.3).
ghost use Rattle.std.specs.Prelude.{◌≡◌, ◌+◌, ◌<◌, ◌≤◌, ◌^◌};
ghost use Rattle.rv_word.specs.Fields.{bits_at, signed, rd_of, rs1_of, rs2_of, i_imm, s_imm, b_imm, u_imm, j_imm};

use crate::Reg;

/// The `len` bits of the word from bit `low` on.
#[tactic(auto, unfolding(crate::specs::Fields::bits_at))]
#[inline(always)]
pub fn bits(word: u32, low: u32, len: u32) -> u32
    requires low { low < 32 }
    requires len { len < 32 }
    ensures value { result ≡ bits_at low len word }
    ensures below { result < 2 ^ len }
{
    (word >> low) % (1 << len)
}

#[tactic(auto, unfolding(crate::specs::Fields::signed))]
#[inline(always)]
fn sign_extended(number: u32, len: u32) -> i64
    requires len { len ≤ 32 }
    requires below { number < 2 ^ len }
    ensures { result ≡ signed len number }
{
    let value = i64::from(number);
    let size = 1_i64 << len;
    if value < size / 2 {
        value
    } else {
        value - size
    }
}

#[inline(always)]
fn register(word: u32, low: u32) -> Reg
    requires { low < 32 }
    ensures { result ≡ bits_at low 5 word }
{
    Reg::new(bits(word, low, 5) as u8)
}

#[inline(always)]
pub fn rd(word: u32) -> Reg
    ensures { result ≡ rd_of word }
{
    register(word, 7)
}

#[inline(always)]
pub fn rs1(word: u32) -> Reg
    ensures { result ≡ rs1_of word }
{
    register(word, 15)
}

#[inline(always)]
pub fn rs2(word: u32) -> Reg
    ensures { result ≡ rs2_of word }
{
    register(word, 20)
}

#[inline(always)]
pub fn i_immediate(word: u32) -> i64
    ensures { result ≡ i_imm word }
{
    sign_extended(bits(word, 20, 12), 12)
}

#[inline(always)]
pub fn s_immediate(word: u32) -> i64
    ensures { result ≡ s_imm word }
{
    sign_extended((bits(word, 25, 7) << 5) + bits(word, 7, 5), 12)
}

#[inline(always)]
pub fn b_immediate(word: u32) -> i64
    ensures { result ≡ b_imm word }
{
    let high = (bits(word, 31, 1) << 12) + (bits(word, 7, 1) << 11);
    let low = (bits(word, 25, 6) << 5) + (bits(word, 8, 4) << 1);
    sign_extended(high + low, 13)
}

#[inline(always)]
pub fn u_immediate(word: u32) -> i64
    ensures { result ≡ u_imm word }
{
    sign_extended(bits(word, 12, 20) << 12, 32)
}

#[inline(always)]
pub fn j_immediate(word: u32) -> i64
    ensures { result ≡ j_imm word }
{
    let high = (bits(word, 31, 1) << 20) + (bits(word, 12, 8) << 12);
    let low = (bits(word, 20, 1) << 11) + (bits(word, 21, 10) << 1);
    sign_extended(high + low, 21)
}
