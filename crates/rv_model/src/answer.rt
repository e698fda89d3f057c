//! How a step and a run end.
use crate::OUTPUT_LEN;

/// Why a step can't be done. The first number is pc.
#[derive(Clone, Copy, Debug, PartialEq, Eq)]
pub enum RunFault {
    /// No executable word is at pc.
    BadPc(u64),
    /// The word, given second, is no instruction.
    Illegal(u64, u32),
    /// The word is EBREAK.
    Break(u64),
    /// The word is ECALL and the call's number in x17, given second, is not EXIT_CALL.
    BadCall(u64, u64),
    /// The address of a load or a store, given second, is no multiple of its width.
    Misaligned(u64, u64),
    /// The address of a load or a store, given second, is past the end of memory.
    BadAddress(u64, u64),
    /// The target of a jump or a taken branch, given second, is no multiple of 4.
    BadTarget(u64, u64),
}

/// What one step answers.
#[derive(Clone, Copy, Debug, PartialEq, Eq)]
pub enum StepAnswer {
    /// The machine is in the next state.
    Next,
    /// ECALL with EXIT_CALL in x17; nothing has changed.
    Halt,
    /// Nothing has changed.
    Fault(RunFault),
}

/// What a run publishes: x10, and the bytes of the output window, both at the halt.
#[derive(Clone, Copy, Debug, PartialEq, Eq)]
pub struct Public {
    pub exit: u64,
    pub output: [u8; OUTPUT_LEN],
}

/// A run that halted: its number of steps, the halting one with them, and what it published.
#[derive(Clone, Copy, Debug, PartialEq, Eq)]
pub struct Ran {
    pub steps: u32,
    pub public: Public,
}

/// Why a whole run has no result.
#[derive(Clone, Copy, Debug, PartialEq, Eq)]
pub enum RunEnd {
    /// A step faulted.
    Fault(RunFault),
    /// Each of so many first steps led on.
    StepLimit(u32),
    /// Memory was wanting.
    NoMemory,
}
