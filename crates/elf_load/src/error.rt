//! Why a file is refused.
ghost use Rattle.std.specs.Prelude.{◌≡◌};
ghost use Rattle.elf_load.specs.declared.error.ElfErr.TheVariants.{NoMemory};

use std::alloc::{AllocError, AllocFailed};
use thiserror::Error;

/// Why a file is not loaded. All but `NoMemory` are refusals of the file: the first of the loader's
/// tests, in the order of these variants, that fails, with the least index of a program header at
/// which it does (for `Overlap` the least first index, then the least second).
#[derive(Clone, Copy, Debug, PartialEq, Eq, Error)]
pub enum ElfErr {
    /// The file has so many bytes, fewer than 64.
    #[error("{0} bytes are no ELF file")]
    Short(u64),
    /// The first four bytes are not 7F 45 4C 46.
    #[error("no ELF file")]
    BadMagic,
    /// The class is not 2, the data encoding is not 1 or the version is not 1.
    #[error("not ELF64, little-endian, version 1")]
    NotElf64Le,
    /// e_type is this and not 2.
    #[error("file type {0} is no executable")]
    NotExec(u16),
    /// e_machine is this and not 243.
    #[error("machine {0} is not RISC-V")]
    NotRiscv(u16),
    /// The program header with this index is not 56 bytes of the file.
    #[error("program header {0} is not in the file")]
    BadPhdrs(u16),
    /// This program header asks for a dynamic linker or names an interpreter.
    #[error("program header {0} is of a dynamic file")]
    NotStatic(u16),
    /// This segment's bytes pass the end of the file, or are more than its memory.
    #[error("the bytes of segment {0} are not in the file")]
    FilePart(u16),
    /// This segment ends past the end of memory.
    #[error("segment {0} ends above 2^32")]
    OutOfRange(u16),
    /// These two segments share an address.
    #[error("segments {0} and {1} overlap")]
    Overlap(u16, u16),
    /// This segment shares an address with the input window or the output window.
    #[error("segment {0} meets a window")]
    WindowClash(u16),
    /// The segments have so many bytes in the file, more than may be loaded. Past 2^64 - 1 the number stays
    /// there, which no file of fewer than 2^48 bytes reaches.
    #[error("{0} bytes are too many to load")]
    TooMuchData(u64),
    /// No executable word is at this entry.
    #[error("no executable word at the entry {0}")]
    EntryOutside(u64),
    /// Memory ran out. This may come at any file.
    #[error("out of memory")]
    NoMemory,
}

impl From<AllocError> for ElfErr {
    ghost from_gives = { λ _ e. e ≡ NoMemory };

    fn from(_error: AllocError) -> ElfErr {
        ElfErr::NoMemory
    }
}

impl<T: Drop> From<AllocFailed<T>> for ElfErr {
    ghost from_gives = { λ _ e. e ≡ NoMemory };

    fn from(_error: AllocFailed<T>) -> ElfErr {
        ElfErr::NoMemory
    }
}
