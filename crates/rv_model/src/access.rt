//! The access of a load or a store to memory.
ghost use Rattle.std.specs.Prelude.{◌≡◌, ◌+◌, ◌*◌, ◌/◌, ◌%◌, ◌<◌, ◌^◌, IsTrue, ◌↔◌, ℕ};
ghost use Rattle.rv_model.specs.Align.{width, aligned};
ghost use Rattle.rv_model.specs.Bytes.{ActsOnBytes};
ghost use Rattle.rv_model.specs.Cpu.{IsGood};

use crate::{MEMORY_END, MEMORY_WORDS, align, width_of};
use rv_word::Kind;

/// What a load or a store does to memory: its kind, its byte address, and the value that a store puts.
#[derive(Clone, Copy, Debug, PartialEq, Eq)]
pub struct Access {
    pub kind: Kind,
    pub address: u64,
    /// rs2's value for a store, 0 for a load.
    pub value: u64,
}

impl Access {
    /// Whether the address is a multiple of the kind's width and in memory.
    #[inline(always)]
    pub fn is_good(&self) -> bool
        ensures { IsTrue result ↔ IsGood self.now }
    {
        self.address.is_multiple_of(width_of(self.kind)) && self.address < MEMORY_END
    }

    /// The number of the doubleword that it touches.
    #[inline(always)]
    pub fn index(&self) -> u32
        requires { IsGood self.now }
        ensures index { result ≡ self.now.address / 8 }
        ensures below { result < MEMORY_WORDS }
    {
        (self.address / 8) as u32
    }

    /// The byte within the doubleword at which it begins.
    #[inline(always)]
    pub fn offset(&self) -> u8
        ensures offset { result ≡ self.now.address % 8 }
        ensures below { result < 8 }
    {
        (self.address % 8) as u8
    }

    /// For a load what comes into the register, for a store the new doubleword, where it was `old`. In a memory of bytes,
    /// the lowest first, the load reads the bytes from the address on, and the store writes them and no others.
    #[inline(always)]
    pub fn result(&self, old: u64) -> u64
        requires { IsGood self.now }
        ensures aligned { result ≡ aligned self.now.kind (self.now.address % 8) old self.now.value }
        ensures bytes { (word : ℕ → ℕ) → word (self.now.address / 8) ≡ old → ActsOnBytes self.now.kind self.now.address self.now.value word result }
    {
        align(self.kind, self.offset(), old, self.value)
    }
}
