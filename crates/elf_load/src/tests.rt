//! Files by the offsets of the System V gABI, and what they load as.
ghost use Rattle.std.specs.Prelude.{◌+◌, ◌≤◌, length};

use super::{ElfErr, load};
use std::alloc::{AllocError, Global};
use std::test::Fail;

/// A file that ends with 7, of three words; its one segment has address 0x10078.
const EXIT_SEVEN: [u8; 132] = [
    0x7F, 0x45, 0x4C, 0x46, 2, 1, 1, 0, 0, 0, 0, 0, 0, 0, 0, 0, // e_ident
    2, 0, 0xF3, 0, 1, 0, 0, 0, // e_type, e_machine, e_version
    0x78, 0, 1, 0, 0, 0, 0, 0, // e_entry
    64, 0, 0, 0, 0, 0, 0, 0, // e_phoff
    0, 0, 0, 0, 0, 0, 0, 0, // e_shoff
    0, 0, 0, 0, 64, 0, 56, 0, 1, 0, 0, 0, 0, 0, 0, 0, // e_flags to e_shstrndx
    1, 0, 0, 0, 5, 0, 0, 0, // p_type, p_flags
    120, 0, 0, 0, 0, 0, 0, 0, // p_offset
    0x78, 0, 1, 0, 0, 0, 0, 0, // p_vaddr
    0x78, 0, 1, 0, 0, 0, 0, 0, // p_paddr
    12, 0, 0, 0, 0, 0, 0, 0, // p_filesz
    12, 0, 0, 0, 0, 0, 0, 0, // p_memsz
    4, 0, 0, 0, 0, 0, 0, 0, // p_align
    0x13, 0x05, 0x70, 0x00, 0x93, 0x08, 0xD0, 0x05, 0x73, 0, 0, 0,
];

/// Eight bytes at an offset of that file, as a number, and the refusal that they bring.
const BROKEN: [(usize, u64, ElfErr); 16] = [
    (0, 0x0001_0102_464C_4500, ElfErr::BadMagic),
    (0, 0x0001_0101_464C_457F, ElfErr::NotElf64Le),
    (0, 0x0001_0202_464C_457F, ElfErr::NotElf64Le),
    (16, 0x0000_0001_00F3_0003, ElfErr::NotExec(3)),
    (16, 0x0000_0001_003E_0002, ElfErr::NotRiscv(62)),
    (56, 2, ElfErr::BadPhdrs(1)),
    (32, u64::MAX - 55, ElfErr::BadPhdrs(0)),
    (48, 0x0001_0037_0040_0000, ElfErr::BadPhdrs(0)),
    (64, 0x0000_0005_0000_0003, ElfErr::NotStatic(0)),
    (72, u64::MAX, ElfErr::FilePart(0)),
    (104, 11, ElfErr::FilePart(0)),
    (80, u64::MAX - 7, ElfErr::OutOfRange(0)),
    (80, 0x4000_0000, ElfErr::WindowClash(0)),
    (80, 0x5000_00FF, ElfErr::WindowClash(0)),
    (24, 0x1007A, ElfErr::EntryOutside(65658)),
    (56, 0, ElfErr::EntryOutside(65656)),
];

fn refusal(alloc: Global, file: &[u8]) -> Option<ElfErr> {
    load(alloc, file, &[]).err()
}

#[test]
fn a_file_is_loaded_with_its_input(rt: HostRuntime) -> Result<(), Fail> {
    let image = load(rt.alloc(), &EXIT_SEVEN, b"abc")?;
    assert_eq!(rt; image.entry, 0x10078);
    assert_eq!(rt; image.input.as_slice(), b"abc".as_slice());
    assert_eq!(rt; image.segments.len(), 1);
    let segment = &image.segments[0];
    assert!(rt; segment.start == 0x10078 && segment.len == 12 && segment.exec);
    assert_eq!(rt; segment.bytes.as_slice(), &EXIT_SEVEN[120..]);
    Ok(())
}

#[test]
fn a_broken_number_is_refused(rt: HostRuntime) {
    for (at, number, wanted) in BROKEN {
        let mut file = EXIT_SEVEN;
        if at <= 124 {
            file[at..at + 8].copy_from_slice(&number.to_le_bytes());
        }
        assert_eq!(rt; refusal(rt.alloc(), &file), Some(wanted));
    }
}

#[test]
fn a_cut_file_is_refused_at_its_cut(rt: HostRuntime) {
    for len in 0..132 {
        let wanted = if len < 64 {
            ElfErr::Short(len as u64)
        } else if len < 120 {
            ElfErr::BadPhdrs(0)
        } else {
            ElfErr::FilePart(0)
        };
        assert_eq!(rt; refusal(rt.alloc(), &EXIT_SEVEN[..len]), Some(wanted));
    }
}

/// A program header of an executable segment without bytes in the file.
fn zeros(p_vaddr: u64, p_memsz: u64) -> [u8; 56] {
    let mut header = [0; 56];
    header[0] = 1;
    header[4] = 5;
    header[16..24].copy_from_slice(&p_vaddr.to_le_bytes());
    header[40..48].copy_from_slice(&p_memsz.to_le_bytes());
    header
}

fn put(file: &mut [u8], at: usize, part: &[u8])
    requires { at + length part.now ≤ length file.old }
{
    file[at..at + part.len()].copy_from_slice(part);
}

/// A file with the entry 0x10078 and three program headers.
fn three(first: [u8; 56], second: [u8; 56], third: [u8; 56]) -> [u8; 232] {
    let mut file = [0; 232];
    put(&mut file, 0, &EXIT_SEVEN[..64]);
    put(&mut file, 56, &[3]);
    put(&mut file, 64, &first);
    put(&mut file, 120, &second);
    put(&mut file, 176, &third);
    file
}

/// The ranges of three segments, and the refusal that they bring, if any.
const RANGES: [([(u64, u64); 3], Option<ElfErr>); 6] = [
    (
        [(0x10100, 8), (0x10000, 0x100), (0xFFFF_F000, 0x1000)],
        None,
    ),
    (
        [(0x10000, 8), (0x20000, 8), (0xFFFF_F000, 0x1001)],
        Some(ElfErr::OutOfRange(2)),
    ),
    (
        [(0x10100, 8), (0x10000, 0x101), (0x30000, 8)],
        Some(ElfErr::Overlap(0, 1)),
    ),
    (
        [(0x50000, 8), (0x10000, 0x1000), (0x10FFF, 1)],
        Some(ElfErr::Overlap(1, 2)),
    ),
    (
        [(0x10000, 8), (0x30000, 8), (0x10000, 8)],
        Some(ElfErr::Overlap(0, 2)),
    ),
    ([(0x10000, 0x1000), (0x10000, 0), (0x10800, 0)], None),
];

#[test]
fn the_first_two_segments_that_overlap_are_named(rt: HostRuntime) {
    for ([a, b, c], wanted) in RANGES {
        let file = three(zeros(a.0, a.1), zeros(b.0, b.1), zeros(c.0, c.1));
        assert_eq!(rt; refusal(rt.alloc(), &file), wanted);
    }
}

/// A file as a linker writes it: 76 bytes of code, 2,048 of data in 4,096 of memory, and a header of
/// another type.
fn linked(alloc: Global, code_first: bool) -> Result<Vec<u8>, AllocError> {
    let mut code = zeros(0x11000, 76);
    code[9] = 0x10;
    code[32] = 76;
    let mut data = zeros(0x12000, 4096);
    data[4] = 6;
    data[9] = 0x20;
    data[33] = 8;
    let mut stack = [0; 56];
    stack[..4].copy_from_slice(&[0x51, 0xE5, 0x74, 0x64]);
    let headers = if code_first {
        three(code, data, stack)
    } else {
        three(data, stack, code)
    };
    let mut file = Vec::from_slice(alloc, &headers)?;
    file.resize(0x1000, 0)?;
    file.resize(0x2000, 1)?;
    file.resize(0x2800, 2)?;
    Ok(file)
}

#[test]
fn segments_ascend(rt: HostRuntime) -> Result<(), Fail> {
    for code_first in [true, false] {
        let mut file = linked(rt.alloc(), code_first)?;
        if let Some(byte) = file.get_mut(24) {
            *byte = 0;
        }
        if let Some(byte) = file.get_mut(25) {
            *byte = 0x10;
        }
        let image = load(rt.alloc(), &file, &[])?;
        assert_eq!(rt; image.segments.len(), 2);
        let code = &image.segments[0];
        assert!(rt; code.start == 0x11000 && code.exec && code.bytes.len() == 76);
        let data = &image.segments[1];
        assert!(rt; data.start == 0x12000 && !data.exec && data.len == 4096);
        assert!(rt; data.bytes.len() == 2048 && data.bytes.iter().all(|byte| *byte == 2));
    }
    Ok(())
}
