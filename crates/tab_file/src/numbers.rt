//! The numbers that a header begins with.

/// `ZKWT`, read as a number.
pub(crate) const MAGIC: u32 = 0x5457_4b5a;

/// The version of format 1.
pub(crate) const ONE: u32 = 1;

/// The version of format 2.
pub(crate) const TWO: u32 = 2;

/// Profile Small in format 2.
pub(crate) const SMALL: u32 = 1;

/// Profile Wide in format 2.
pub(crate) const WIDE: u32 = 2;
