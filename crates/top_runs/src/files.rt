//! The files that are run.
use std::alloc::{AllocError, Global};

// An ELF file with one program header, up to the sizes of its segment.
const HEADERS: [u8; 96] = [
    0x7f, b'E', b'L', b'F', 2, 1, 1, 0, 0, 0, 0, 0, 0, 0, 0, 0, 2, 0, 243, 0, 1, 0, 0, 0, 0x78, 0,
    1, 0, 0, 0, 0, 0, 64, 0, 0, 0, 0, 0, 0, 0, 0, 0, 0, 0, 0, 0, 0, 0, 0, 0, 0, 0, 64, 0, 56, 0, 1,
    0, 0, 0, 0, 0, 0, 0, 1, 0, 0, 0, 5, 0, 0, 0, 120, 0, 0, 0, 0, 0, 0, 0, 0x78, 0, 1, 0, 0, 0, 0,
    0, 0x78, 0, 1, 0, 0, 0, 0, 0,
];

// ADDI x5, x5, 1
const ONE_MORE: u32 = 0x0012_8293;

// ADDI x17, x0, 93; ECALL
const HALT: [u32; 2] = [0x05d0_0893, 0x0000_0073];

/// The file of n times the same instruction, and the halt.
pub fn same_steps(alloc: Global, n: u16) -> Result<Vec<u8>, AllocError> {
    let mut bytes = HEADERS.to_vec(alloc)?;
    let size = 4 * (u64::from(n) + 2);
    bytes.extend_from_slice(&size.to_le_bytes())?;
    bytes.extend_from_slice(&size.to_le_bytes())?;
    bytes.extend_from_slice(&4u64.to_le_bytes())?;
    for _ in 0..n {
        bytes.extend_from_slice(&ONE_MORE.to_le_bytes())?;
    }
    for word in &HALT {
        bytes.extend_from_slice(&word.to_le_bytes())?;
    }
    Ok(bytes)
}

// The head of a file with four program headers and its entry at 0x11000.
const LINKED_HEAD: [u8; 64] = [
    0x7f, b'E', b'L', b'F', 2, 1, 1, 0, 0, 0, 0, 0, 0, 0, 0, 0, 2, 0, 243, 0, 1, 0, 0, 0, 0, 0x10,
    1, 0, 0, 0, 0, 0, 64, 0, 0, 0, 0, 0, 0, 0, 0, 0, 0, 0, 0, 0, 0, 0, 0, 0, 0, 0, 64, 0, 56, 0, 4,
    0, 0, 0, 0, 0, 0, 0,
];

// For each program header its type, flags, place in the file, address, and its sizes in the file and in memory.
const LINKED_PARTS: [(u32, u32, u64, u64, u64, u64); 4] = [
    (1, 7, 0x1000, 0x1_1000, 76, 76),
    (1, 6, 0x2000, 0x1_2000, 2048, 4096),
    (0x6474_e551, 6, 0, 0, 0, 0),
    (0x7000_0003, 4, 0, 0, 0, 0),
];

// Sums 3 times each byte of the input by a table of doublewords, and stores the sum to the output window.
const SUMMING: [u32; 19] = [
    0x4000_02b7,
    0x0002_b303,
    0x0082_8293,
    0x0053_0333,
    0x0001_23b7,
    0x0000_0413,
    0x0262_8063,
    0x0002_c483,
    0x0034_9493,
    0x0074_84b3,
    0x0004_b483,
    0x0094_0433,
    0x0012_8293,
    0xfe5f_f06f,
    0x5000_02b7,
    0x0082_b023,
    0x05d0_0893,
    0x0000_0513,
    0x0000_0073,
];

/// A file as a linker writes it, with code and a table of data.
pub fn linked(alloc: Global) -> Result<Vec<u8>, AllocError> {
    let mut bytes = LINKED_HEAD.to_vec(alloc)?;
    for (kind, flags, place, address, in_file, in_memory) in LINKED_PARTS {
        bytes.extend_from_slice(&kind.to_le_bytes())?;
        bytes.extend_from_slice(&flags.to_le_bytes())?;
        for number in [place, address, address, in_file, in_memory, 8] {
            bytes.extend_from_slice(&number.to_le_bytes())?;
        }
    }
    bytes.resize(0x1000, 0)?;
    for word in &SUMMING {
        bytes.extend_from_slice(&word.to_le_bytes())?;
    }
    bytes.resize(0x2000, 0)?;
    for j in 0..256u64 {
        bytes.extend_from_slice(&(3 * j).to_le_bytes())?;
    }
    Ok(bytes)
}
