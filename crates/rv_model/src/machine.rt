//! The numbers of the machine. Code, contracts and definitions cite them from here.

/// The end of memory: addresses are below it.
pub const MEMORY_END: u64 = 1 << 32;

/// How many doublewords memory has: the number of one is below it.
pub const MEMORY_WORDS: u32 = (MEMORY_END / 8) as u32;

/// The first address of the input window, which has the input's length in eight bytes and then its bytes.
pub const INPUT_START: u64 = 0x4000_0000;

/// How many bytes the input window has.
pub const INPUT_LEN: u64 = 1 << 24;

/// The address after the input window.
pub const INPUT_END: u64 = INPUT_START + INPUT_LEN;

/// The first address of the output window.
pub const OUTPUT_START: u64 = 0x5000_0000;

/// How many bytes the output window has.
pub const OUTPUT_LEN: usize = 256;

/// The address after the output window.
pub const OUTPUT_END: u64 = OUTPUT_START + OUTPUT_LEN as u64;

/// The number of the output window's first doubleword.
pub const OUTPUT_INDEX: u32 = (OUTPUT_START / 8) as u32;

/// How many doublewords the output window has.
pub const OUTPUT_WORDS: u32 = (OUTPUT_LEN / 8) as u32;

/// The register in which ECALL finds the call's number (a7), and the number of the call that halts.
pub const CALL_REGISTER: usize = 17;

pub const EXIT_CALL: u64 = 93;

/// The register whose value a halted run publishes (a0).
pub const EXIT_REGISTER: usize = 10;

/// How many bytes of a file may be loaded.
pub const MOST_LOADED: u64 = 1 << 24;
