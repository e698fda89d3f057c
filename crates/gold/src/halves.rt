//! The two 32-bit halves of a 64-bit number.
ghost use Rattle.std.specs.Prelude.{◌≡◌};
ghost use Rattle.gold.specs.Field.{limbs_of, joined_limbs};

/// The low and the high limb: `v` modulo 2^32, and `v` divided by 2^32, rounded down.
#[inline]
pub fn limbs(v: u64) -> (u32, u32)
    ensures { result ≡ limbs_of v }
{
    ((v & 0xffff_ffff) as u32, (v >> 32) as u32)
}

/// The number with these limbs.
#[inline]
pub fn join_limbs(lo: u32, hi: u32) -> u64
    ensures { result ≡ joined_limbs lo hi }
{
    ((hi as u64) << 32) + lo as u64
}
