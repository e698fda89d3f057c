//! An access to memory or to a register.
ghost use Rattle.std.specs.Prelude.{◌≡◌, ◌≤◌, ◌<◌};
ghost use Rattle.mem_rows.specs.Accesses.{register, time};

use rv_model::MEMORY_WORDS;
use rv_word::Reg;

/// The key of x0. A doubleword's key is its number, which is its byte address divided by 8, and the keys of registers follow.
pub const REGISTERS: u32 = MEMORY_WORDS;

/// How many times a step has, one for each slot.
pub const SLOTS: u64 = 8;

/// The slots of a step's accesses: rs1 and rs2 are read, then memory is read and written, then rd is written.
pub const READS_RS1: u64 = 1;

pub const READS_RS2: u64 = 2;

pub const READS_MEMORY: u64 = 3;

pub const WRITES_MEMORY: u64 = 4;

pub const WRITES_RD: u64 = 5;

/// The time of the final reads, which is past all steps: their numbers have 32 bits.
pub const END: u64 = SLOTS * (1 << 32);

/// An access to a doubleword or to a register.
#[derive(Clone, Copy, Debug, PartialEq, Eq)]
pub struct Access {
    /// `SLOTS` times the step's number, and the slot; 0 before the run and `END` after it.
    pub time: u64,
    pub value: u64,
    /// A doubleword's number, or `REGISTERS` and the register's number.
    pub key: u32,
    pub write: bool,
}

/// The key of a register.
#[inline]
pub fn register(reg: Reg) -> u32
    ensures { result ≡ register reg }
{
    REGISTERS + u32::from(reg.number())
}

/// The time of a slot of a step.
#[inline]
pub fn time(step: u32, slot: u64) -> u64
    requires { slot < SLOTS }
    ensures value { result ≡ time step slot }
    ensures before { result ≤ END }
{
    SLOTS * u64::from(step) + slot
}
