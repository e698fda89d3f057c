//! Keys: what an access is to.
use rv_model::MEMORY_WORDS;

/// The key of x0. A doubleword's key is its number, which is its byte address divided by 8, and the keys of registers follow.
pub const REGISTERS: u32 = MEMORY_WORDS;
