//! The file of a run of so many additions.
ghost use Rattle.std.specs.Prelude.{◌+◌, ◌≤◌, ◌^◌};

use std::alloc::{AllocError, Global};

/// More additions than these are more bytes than are loaded.
pub const MOST: u32 = (1 << 22) - 2;

/// ADDI x5, x5, 1.
const ADDITION: u32 = 0x0012_8293;
/// ADDI x17, x0, 93, and ECALL, which then halts.
const HALT: [u32; 2] = [0x05D0_0893, 0x0000_0073];

/// What stands before the size of the one segment: the file's header, and the program header to p_paddr.
const HEAD: [u8; 96] = [
    0x7F, 0x45, 0x4C, 0x46, 2, 1, 1, 0, 0, 0, 0, 0, 0, 0, 0, 0, // e_ident
    2, 0, 0xF3, 0, 1, 0, 0, 0, // e_type, e_machine, e_version
    0x78, 0, 1, 0, 0, 0, 0, 0, // e_entry
    64, 0, 0, 0, 0, 0, 0, 0, // e_phoff
    0, 0, 0, 0, 0, 0, 0, 0, // e_shoff
    0, 0, 0, 0, 64, 0, 56, 0, 1, 0, 0, 0, 0, 0, 0, 0, // e_flags to e_shstrndx
    1, 0, 0, 0, 5, 0, 0, 0, // p_type, p_flags
    120, 0, 0, 0, 0, 0, 0, 0, // p_offset
    0x78, 0, 1, 0, 0, 0, 0, 0, // p_vaddr
    0x78, 0, 1, 0, 0, 0, 0, 0, // p_paddr
];

/// An ELF file of `count` additions and the call that halts.
pub fn additions(alloc: Global, count: u32) -> Result<Vec<u8>, AllocError>
    requires { count + 2 ≤ 2 ^ 22 }
{
    let size = 4 * u64::from(count + 2);
    let mut file = Vec::from_slice(alloc, &HEAD)?;
    file.extend_from_slice(&size.to_le_bytes())?; // p_filesz
    file.extend_from_slice(&size.to_le_bytes())?; // p_memsz
    file.extend_from_slice(&4_u64.to_le_bytes())?; // p_align
    for _ in 0..count {
        file.extend_from_slice(&ADDITION.to_le_bytes())?;
    }
    for word in HALT {
        file.extend_from_slice(&word.to_le_bytes())?;
    }
    Ok(file)
}
