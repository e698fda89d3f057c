//! The numbers of a file.
ghost use Rattle.std.specs.Prelude.{◌≡◌, ◌+◌, ◌≤◌, length};
ghost use Rattle.elf_load.specs.File.{u16_at, u32_at, u64_at, header_at};

use crate::header::ProgramHeader;
use byteorder::{ByteOrder, LittleEndian};

#[tactic(auto, unfolding(crate::specs::File::u16_at))]
pub(crate) fn u16_at(file: &[u8], at: usize) -> u16
    requires { at + 2 ≤ length file.now }
    ensures { result ≡ u16_at file.now at }
{
    LittleEndian::read_u16(&file[at..])
}

#[tactic(auto, unfolding(crate::specs::File::u32_at))]
pub(crate) fn u32_at(file: &[u8], at: usize) -> u32
    requires { at + 4 ≤ length file.now }
    ensures { result ≡ u32_at file.now at }
{
    LittleEndian::read_u32(&file[at..])
}

#[tactic(auto, unfolding(crate::specs::File::u64_at))]
pub(crate) fn u64_at(file: &[u8], at: usize) -> u64
    requires { at + 8 ≤ length file.now }
    ensures { result ≡ u64_at file.now at }
{
    LittleEndian::read_u64(&file[at..])
}

/// The program header at an offset.
#[tactic(auto, unfolding(crate::specs::File::header_at))]
pub(crate) fn header_at(file: &[u8], at: usize) -> ProgramHeader
    requires { at + 56 ≤ length file.now }
    ensures { result ≡ header_at file.now at }
{
    ProgramHeader {
        p_type: u32_at(file, at),
        p_flags: u32_at(file, at + 4),
        p_offset: u64_at(file, at + 8),
        p_vaddr: u64_at(file, at + 16),
        p_filesz: u64_at(file, at + 32),
        p_memsz: u64_at(file, at + 40),
    }
}
