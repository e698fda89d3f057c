use crate::{NoGate, top};
use host_io::{HostCall, MemHost};
use std::alloc::{AllocError, Global};
use std::sync::Wait;
use std::test::Fail;
use std::thread::Threads;
use zk_words::Status;

// An ELF file with one program header and no code: the code stands behind it, at byte 120.
const HEADERS: [u8; 120] = [
    0x7f, b'E', b'L', b'F', 2, 1, 1, 0, 0, 0, 0, 0, 0, 0, 0, 0, 2, 0, 243, 0, 1, 0, 0, 0, 0x78, 0,
    1, 0, 0, 0, 0, 0, 64, 0, 0, 0, 0, 0, 0, 0, 0, 0, 0, 0, 0, 0, 0, 0, 0, 0, 0, 0, 64, 0, 56, 0, 1,
    0, 0, 0, 0, 0, 0, 0, 1, 0, 0, 0, 5, 0, 0, 0, 120, 0, 0, 0, 0, 0, 0, 0, 0x78, 0, 1, 0, 0, 0, 0,
    0, 0x78, 0, 1, 0, 0, 0, 0, 0, 12, 0, 0, 0, 0, 0, 0, 0, 12, 0, 0, 0, 0, 0, 0, 0, 4, 0, 0, 0, 0,
    0, 0, 0,
];

// ADDI x10, x0, 7; ADDI x17, x0, 93; ECALL
const EXIT_SEVEN: [u32; 3] = [0x0070_0513, 0x05d0_0893, 0x0000_0073];

// The file of these words, with the sizes of its segment, and with one byte changed.
fn file(alloc: Global, words: &[u32], change: (usize, u8)) -> Result<Vec<u8>, AllocError> {
    let mut bytes = HEADERS.to_vec(alloc)?;
    for word in words {
        bytes.extend_from_slice(&word.to_le_bytes())?;
    }
    for at in [96, 104] {
        if let Some(byte) = bytes.get_mut(at) {
            *byte = (4 * words.len().min(60)) as u8;
        }
    }
    if let Some(byte) = bytes.get_mut(change.0) {
        *byte = change.1;
    }
    Ok(bytes)
}

// A host with that ELF file and an empty input, which fails these calls.
fn host(alloc: Global, elf: Vec<u8>, failing: Vec<(HostCall, u64)>) -> Result<MemHost, AllocError> {
    let mut files = Vec::new(alloc);
    files.push((String::from_str(alloc, "E")?, elf))?;
    files.push((String::from_str(alloc, "I")?, Vec::new(alloc)))?;
    Ok(MemHost::new(alloc, files, 100, failing))
}

fn words(alloc: Global, line: &str) -> Result<Vec<String>, AllocError> {
    let mut words = Vec::new(alloc);
    for word in line.split(' ') {
        words.push(String::from_str(alloc, word)?)?;
    }
    Ok(words)
}

// The program with these words.
fn status_of<R: Threads + Wait + Sync>(
    rt: &R,
    alloc: Global,
    line: &str,
    host: &mut MemHost,
) -> Result<Status, AllocError> {
    Ok(top(rt, alloc, &words(alloc, line)?, host, &NoGate))
}

// Each fault of a step, by the code that comes to it.
const FAULTS: [(&[u32], &str); 7] = [
    (&[0x0000_0013], "run fault BadPc 65660\n"),
    (&[0x0000_0000], "run fault Illegal 65656 0\n"),
    (&[0x0010_0073], "run fault Break 65656\n"),
    (&[0x0400_0893, 0x0000_0073], "run fault BadCall 65660 64\n"),
    (
        &[0x6000_02b7, 0x0042_b303],
        "run fault Misaligned 65660 1610612740\n",
    ),
    (
        &[
            0xfff0_0293,
            0x0202_d293,
            0xff92_8293,
            0x0052_b023,
            0x0082_b303,
        ],
        "run fault BadAddress 65672 4294967296\n",
    ),
    (
        &[0x0000_0297, 0x00a2_80e7],
        "run fault BadTarget 65660 65666\n",
    ),
];

// Refusals of the file, by the byte that is changed in it.
const REFUSALS: [(usize, u8, &str); 11] = [
    (0, 0, "bad elf BadMagic\n"),
    (4, 1, "bad elf NotElf64Le\n"),
    (16, 3, "bad elf NotExec 3\n"),
    (18, 62, "bad elf NotRiscv 62\n"),
    (56, 2, "bad elf BadPhdrs 1\n"),
    (64, 2, "bad elf NotStatic 0\n"),
    (104, 11, "bad elf FilePart 0\n"),
    (84, 1, "bad elf OutOfRange 0\n"),
    (83, 0x40, "bad elf WindowClash 0\n"),
    (24, 0x7a, "bad elf EntryOutside 65658\n"),
    (68, 6, "bad elf EntryOutside 65656\n"),
];

// In place of the code a second program header, with addresses of the first one's segment.
const SECOND_HEADER: [u32; 14] = [1, 5, 120, 0, 0x1_0078, 0, 0x1_0078, 0, 4, 0, 4, 0, 4, 0];

#[test]
fn a_run_reports_its_steps_and_output(rt: HostRuntime) -> Result<(), Fail> {
    let alloc = rt.alloc();
    let mut host = host(alloc, file(alloc, &EXIT_SEVEN, (7, 0))?, Vec::new(alloc))?;
    let status = status_of(&rt, alloc, "run E I 3", &mut host)?;
    assert_eq!(rt; status.code(), 0);
    let mut report = Vec::from_slice(alloc, b"steps 3\nexit 7\noutput ")?;
    for _ in 0..512 {
        report.push(b'0')?;
    }
    report.push(b'\n')?;
    assert_eq!(rt; host.reported(), report.as_slice());
    Ok(())
}

#[test]
fn faults_and_refusals_are_reported(rt: HostRuntime) -> Result<(), Fail> {
    let alloc = rt.alloc();
    let line = "run E I 9";
    for (code, report) in FAULTS {
        let mut host = host(alloc, file(alloc, code, (7, 0))?, Vec::new(alloc))?;
        let status = status_of(&rt, alloc, line, &mut host)?;
        assert_eq!(rt; status.code(), 4, "at {report}");
        assert_eq!(rt; host.reported(), report.as_bytes(), "at {report}");
    }
    for (at, byte, report) in REFUSALS {
        let mut host = host(
            alloc,
            file(alloc, &EXIT_SEVEN, (at, byte))?,
            Vec::new(alloc),
        )?;
        let status = status_of(&rt, alloc, line, &mut host)?;
        assert_eq!(rt; status.code(), 3, "at {report}");
        assert_eq!(rt; host.reported(), report.as_bytes(), "at {report}");
    }
    Ok(())
}

#[test]
fn segments_that_overlap_or_are_too_large_are_reported(rt: HostRuntime) -> Result<(), Fail> {
    let alloc = rt.alloc();
    let line = "run E I 9";
    let mut overlapping = host(
        alloc,
        file(alloc, &SECOND_HEADER, (56, 2))?,
        Vec::new(alloc),
    )?;
    let status = status_of(&rt, alloc, line, &mut overlapping)?;
    assert_eq!(rt; status.code(), 3);
    assert_eq!(rt; overlapping.reported(), b"bad elf Overlap 0 1\n".as_slice());
    let mut bytes = file(alloc, &[0], (99, 1))?;
    if let Some(byte) = bytes.get_mut(107) {
        *byte = 1;
    }
    bytes.resize(120 + 0x100_0004, 0)?;
    let mut large = host(alloc, bytes, Vec::new(alloc))?;
    let status = status_of(&rt, alloc, line, &mut large)?;
    assert_eq!(rt; status.code(), 3);
    assert_eq!(rt;
        large.reported(),
        b"bad elf TooMuchData 16777220\n".as_slice()
    );
    Ok(())
}

#[test]
fn other_endings_are_reported(rt: HostRuntime) -> Result<(), Fail> {
    let alloc = rt.alloc();
    for (line, code, report) in [
        ("pil missing I", 9, ""),
        ("pil E", 2, "bad words\n"),
        ("run E I 2", 5, "step limit 2\n"),
        ("run E I 03", 2, "bad words\n"),
        ("run E missing 3", 9, ""),
        ("run missing I 3", 9, ""),
    ] {
        let mut host = host(alloc, file(alloc, &EXIT_SEVEN, (7, 0))?, Vec::new(alloc))?;
        let status = status_of(&rt, alloc, line, &mut host)?;
        assert_eq!(rt; status.code(), code, "at {line}");
        assert_eq!(rt; host.reported(), report.as_bytes(), "at {line}");
    }
    let short = HEADERS[..63].to_vec(alloc)?;
    let mut host = host(alloc, short, Vec::new(alloc))?;
    let status = status_of(&rt, alloc, "run E I 3", &mut host)?;
    assert_eq!(rt; status.code(), 3);
    assert_eq!(rt; host.reported(), b"bad elf Short 63\n".as_slice());
    Ok(())
}

#[test]
fn a_failing_host_ends_the_command(rt: HostRuntime) -> Result<(), Fail> {
    let alloc = rt.alloc();
    for (call, number, reported) in [
        (HostCall::Open, 1, 0),
        (HostCall::Read, 0, 0),
        (HostCall::Read, 2, 0),
        (HostCall::Report, 2, 200),
    ] {
        let mut failing = Vec::new(alloc);
        failing.push((call, number))?;
        let mut host = host(alloc, file(alloc, &EXIT_SEVEN, (7, 0))?, failing)?;
        let status = status_of(&rt, alloc, "run E I 3", &mut host)?;
        assert_eq!(rt; status.code(), 9);
        assert_eq!(rt; host.reported().len(), reported);
    }
    Ok(())
}

#[test]
fn a_text_has_a_limit(rt: HostRuntime) -> Result<(), Fail> {
    let alloc = rt.alloc();
    let mut bytes = Vec::new(alloc);
    bytes.resize((1 << 20) + 1, b' ')?;
    let mut host = host(alloc, bytes, Vec::new(alloc))?;
    let status = status_of(&rt, alloc, "pil E I", &mut host)?;
    assert_eq!(rt; status.code(), 8);
    assert_eq!(rt; host.reported(), b"too large pil\n".as_slice());
    Ok(())
}

#[test]
fn a_failing_host_ends_the_check(rt: HostRuntime) -> Result<(), Fail> {
    let alloc = rt.alloc();
    for (call, number) in [(HostCall::Open, 0), (HostCall::Read, 1)] {
        let mut failing = Vec::new(alloc);
        failing.push((call, number))?;
        let mut host = host(alloc, file(alloc, &EXIT_SEVEN, (7, 0))?, failing)?;
        let status = status_of(&rt, alloc, "pil E I", &mut host)?;
        assert_eq!(rt; status.code(), 9);
        assert_eq!(rt; host.reported().len(), 0);
    }
    Ok(())
}

// A host with the ELF file of `EXIT_SEVEN`, an empty input, and these tables.
fn host_of_tables(alloc: Global, tables: Option<Vec<u8>>) -> Result<MemHost, AllocError> {
    let mut files = Vec::new(alloc);
    let elf = file(alloc, &EXIT_SEVEN, (7, 0))?;
    files.push((String::from_str(alloc, "E")?, elf))?;
    files.push((String::from_str(alloc, "I")?, Vec::new(alloc)))?;
    if let Some(bytes) = tables {
        files.push((String::from_str(alloc, "T")?, bytes))?;
    }
    Ok(MemHost::new(alloc, files, 65_536, Vec::new(alloc)))
}

// The bytes of the tables of `EXIT_SEVEN`.
fn tables<R: Threads + Wait + Sync>(rt: &R, alloc: Global) -> Result<Vec<u8>, AllocError> {
    let mut host = host_of_tables(alloc, None)?;
    let _status = status_of(rt, alloc, "witness E I T 3 0", &mut host)?;
    match host.written("T") {
        Some(bytes) => bytes.to_vec(alloc),
        None => Ok(Vec::new(alloc)),
    }
}

#[test]
fn tables_are_written_and_accepted(rt: HostRuntime) -> Result<(), Fail> {
    let alloc = rt.alloc();
    let mut host = host_of_tables(alloc, None)?;
    let status = status_of(&rt, alloc, "witness E I T 3 0", &mut host)?;
    assert_eq!(rt; status.code(), 0);
    let mut report = Vec::from_slice(alloc, b"steps 3\nexit 7\noutput ")?;
    report.resize(report.len() + 512, b'0')?;
    report.push(b'\n')?;
    assert_eq!(rt; host.reported(), report.as_slice());
    assert_eq!(rt; host.written("T").map(|bytes| bytes.len()), Some(4_064_364));
    let status = status_of(&rt, alloc, "check E I T", &mut host)?;
    assert_eq!(rt; status.code(), 0);
    report.extend_from_slice(b"accepted\nexit 7\noutput ")?;
    report.resize(report.len() + 512, b'0')?;
    report.push(b'\n')?;
    assert_eq!(rt; host.reported(), report.as_slice());
    Ok(())
}

// Column 4 of Mem, `lo`, at row 40: behind the header, Main's instance and what stands before Mem's values.
const LO_AT_40: usize = 44 + (16 + 37 * 4096 * 8) + 16 + (4 * 8192 + 40) * 8;

#[test]
fn a_forged_value_breaks_a_line(rt: HostRuntime) -> Result<(), Fail> {
    let alloc = rt.alloc();
    let mut bytes = tables(&rt, alloc)?;
    if let Some(byte) = bytes.get_mut(LO_AT_40) {
        *byte = 8;
    }
    let mut host = host_of_tables(alloc, Some(bytes))?;
    let status = status_of(&rt, alloc, "check E I T", &mut host)?;
    assert_eq!(rt; status.code(), 1);
    assert_eq!(rt;
        host.reported(),
        b"broken line 20 tuple 536870922,34359738368,0,7,0 left 1 right 0\n".as_slice()
    );
    Ok(())
}

#[test]
fn tables_that_are_cut_are_refused(rt: HostRuntime) -> Result<(), Fail> {
    let alloc = rt.alloc();
    let mut bytes = tables(&rt, alloc)?;
    let _last = bytes.pop();
    let mut host = host_of_tables(alloc, Some(bytes))?;
    let status = status_of(&rt, alloc, "check E I T", &mut host)?;
    assert_eq!(rt; status.code(), 6);
    assert_eq!(rt; host.reported(), b"bad tables Short 4064363\n".as_slice());
    Ok(())
}

#[test]
fn the_machine_is_printed_in_both_profiles(rt: HostRuntime) -> Result<(), Fail> {
    let alloc = rt.alloc();
    for (line, main) in [
        ("machine", "namespace Main(4096);\n"),
        ("machine wide", "namespace Main(16384);\n"),
    ] {
        let mut host = host_of_tables(alloc, None)?;
        let status = status_of(&rt, alloc, line, &mut host)?;
        assert_eq!(rt; status.code(), 0, "at {line}");
        let found = host
            .reported()
            .windows(main.len())
            .any(|piece| piece == main.as_bytes());
        assert!(rt; found, "at {line}");
    }
    Ok(())
}

#[test]
fn a_failing_host_leaves_a_front_of_the_tables(rt: HostRuntime) -> Result<(), Fail> {
    let alloc = rt.alloc();
    for (call, number, written) in [
        (HostCall::Create, 0, None),
        (HostCall::Write, 0, Some(0)),
        (HostCall::Write, 2, Some(2 * 65_536)),
        (HostCall::Report, 0, Some(4_064_364)),
    ] {
        let mut failing = Vec::new(alloc);
        failing.push((call, number))?;
        let mut files = Vec::new(alloc);
        let elf = file(alloc, &EXIT_SEVEN, (7, 0))?;
        files.push((String::from_str(alloc, "E")?, elf))?;
        files.push((String::from_str(alloc, "I")?, Vec::new(alloc)))?;
        let mut host = MemHost::new(alloc, files, 65_536, failing);
        let status = status_of(&rt, alloc, "witness E I T 3 0", &mut host)?;
        assert_eq!(rt; status.code(), 9);
        assert_eq!(rt; host.written("T").map(|bytes| bytes.len()), written);
        assert_eq!(rt; host.reported().len(), 0);
    }
    Ok(())
}
