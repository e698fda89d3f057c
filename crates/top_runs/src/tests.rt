//! The runs.
use crate::files::{linked, same_steps};
use crate::gates::{BothSides, Calls, FourAtOnce};
use elf_load::load;
use host_io::MemHost;
use job_queue::JobQueue;
use std::alloc::{AllocError, Global};
use std::sync::atomic::Ordering;
use std::sync::{Arc, Wait};
use std::test::Fail;
use std::thread::Threads;
use wit_pool::expand_all;
use zk_top::{NoGate, top};

// A host with this ELF file and this input.
fn host(alloc: Global, elf: Vec<u8>, input: Vec<u8>) -> Result<MemHost, AllocError> {
    let mut files = Vec::new(alloc);
    files.push((String::from_str(alloc, "E")?, elf))?;
    files.push((String::from_str(alloc, "I")?, input))?;
    Ok(MemHost::new(alloc, files, 65_536, Vec::new(alloc)))
}

fn words(alloc: Global, line: &str) -> Result<Vec<String>, AllocError> {
    let mut words = Vec::new(alloc);
    for word in line.split(' ') {
        words.push(String::from_str(alloc, word)?)?;
    }
    Ok(words)
}

// The end of a report: what stands first in the output window, and zeros.
fn with_output(alloc: Global, lines: &str, output: &str) -> Result<Vec<u8>, AllocError> {
    let mut report = Vec::from_slice(alloc, lines.as_bytes())?;
    report.extend_from_slice(b"output ")?;
    report.extend_from_slice(output.as_bytes())?;
    for _ in output.len()..512 {
        report.push(b'0')?;
    }
    report.push(b'\n')?;
    Ok(report)
}

/// 16 chunks by the caller and one worker, over a queue of one: each waits at a gate for the other. While the worker is held the
/// caller takes each job for which there is no room.
#[test]
fn busy_pool(rt: HostRuntime) -> Result<(), Fail> {
    let alloc = rt.alloc();
    let Ok(image) = load(alloc, &same_steps(alloc, 16_382)?, &[]) else {
        return Err("no image".into());
    };
    let image = Arc::new(alloc, image)?;
    let (queue, pass) = JobQueue::new(alloc, 1, 2, Arc::try_clone(&image)?)?;
    let gate = BothSides(Calls::new());
    let (_pass, answer) = expand_all(&rt, alloc, &queue, pass, image, 20_000, 1, &gate);
    let Ok(made) = answer else {
        return Err("the run doesn't halt".into());
    };
    assert_eq!(&rt; made.steps, 16_384);
    assert_eq!(&rt; gate.0.in_order.load(Ordering::SeqCst), 16);
    assert_eq!(&rt; gate.0.published.load(Ordering::SeqCst), 16);
    assert_eq!(&rt; gate.0.met.load(Ordering::SeqCst), 2);
    assert!(&rt; gate.0.entered.load(Ordering::SeqCst) <= 4);
    Ok(())
}

#[test]
fn a_worker_runs_beside_the_emulator(rt: HostRuntime) -> Result<(), Fail> {
    let alloc = rt.alloc();
    let mut host = host(alloc, same_steps(alloc, 16_382)?, Vec::new(alloc))?;
    let gate = BothSides(Calls::new());
    let line = words(alloc, "witness E I T 20000 1")?;
    let status = top(&rt, alloc, &line, &mut host, &gate);
    assert_eq!(&rt; status.code(), 0);
    let report = with_output(alloc, "steps 16384\nexit 0\n", "")?;
    assert_eq!(&rt; host.reported(), report.as_slice());
    assert_eq!(&rt; gate.0.in_order.load(Ordering::SeqCst), 16);
    assert_eq!(&rt; gate.0.published.load(Ordering::SeqCst), 16);
    assert_eq!(&rt; gate.0.met.load(Ordering::SeqCst), 2);
    Ok(())
}

#[test]
fn four_workers_run_at_once(rt: HostRuntime) -> Result<(), Fail> {
    let alloc = rt.alloc();
    let mut host = host(alloc, same_steps(alloc, 16_382)?, Vec::new(alloc))?;
    let gate = FourAtOnce(Calls::new());
    let line = words(alloc, "witness E I T 20000 4")?;
    let status = top(&rt, alloc, &line, &mut host, &gate);
    assert_eq!(&rt; status.code(), 0);
    let report = with_output(alloc, "steps 16384\nexit 0\n", "")?;
    assert_eq!(&rt; host.reported(), report.as_slice());
    assert_eq!(&rt; gate.0.in_order.load(Ordering::SeqCst), 16);
    assert_eq!(&rt; gate.0.met.load(Ordering::SeqCst), 5);
    Ok(())
}

/// Each number of workers writes the same tables, which are accepted.
#[test]
fn linked_file(rt: HostRuntime) -> Result<(), Fail> {
    let alloc = rt.alloc();
    let mut input = Vec::new(alloc);
    for i in 0..300u16 {
        input.push((i % 256) as u8)?;
    }
    let mut host = host(alloc, linked(alloc)?, input)?;
    let report = with_output(alloc, "steps 2412\nexit 0\n", "9689010000000000")?;
    let mut reports = Vec::new(alloc);
    for workers in [0, 1, 4, 64] {
        let line = format!(in alloc; "witness E I T{workers} 5000 {workers}")?;
        let status = top(&rt, alloc, &words(alloc, &line)?, &mut host, &NoGate);
        assert_eq!(&rt; status.code(), 0, "with {workers}");
        reports.extend_from_slice(&report)?;
    }
    assert_eq!(&rt; host.reported(), reports.as_slice());
    assert!(&rt; host.written("T0").is_some());
    for name in ["T1", "T4", "T64"] {
        assert!(&rt; host.written(name) == host.written("T0"), "in {name}");
    }
    let line = words(alloc, "check E I T64")?;
    let status = top(&rt, alloc, &line, &mut host, &NoGate);
    assert_eq!(&rt; status.code(), 0);
    reports.extend_from_slice(&with_output(alloc, "accepted\nexit 0\n", "9689010000000000")?)?;
    assert_eq!(&rt; host.reported(), reports.as_slice());
    Ok(())
}

// The command's report begins and ends so.
fn demo<R: Threads + Wait + Sync>(
    rt: &R,
    alloc: Global,
    line: &str,
    begins: &str,
    ends: &str,
) -> Result<bool, AllocError> {
    let mut host = MemHost::new(alloc, Vec::new(alloc), 65_536, Vec::new(alloc));
    let status = top(rt, alloc, &words(alloc, line)?, &mut host, &NoGate);
    let report = host.reported();
    Ok(
        status.code() == 0
            && report.starts_with(begins.as_bytes())
            && report.ends_with(ends.as_bytes()),
    )
}

#[test]
fn small_demos(rt: HostRuntime) -> Result<(), Fail> {
    for (line, ends) in [
        ("demo 1 mem 1", "\ninstances 1 1 1 0 0 1 1\naccepted\n"),
        ("demo 1 mul 1", "\ninstances 1 1 1 0 1 1 1\naccepted\n"),
    ] {
        assert!(&rt;
            demo(&rt, rt.alloc(), line, "steps 22\n", ends)?,
            "at {line}"
        );
    }
    Ok(())
}

#[test]
fn large_mul_demo(rt: HostRuntime) -> Result<(), Fail> {
    let begins = "steps 5021\nexit 0\n";
    let ends = "\ninstances 2 3 1 0 5 1 1\naccepted\n";
    assert!(&rt; demo(&rt, rt.alloc(), "demo 7 mul 5000", begins, ends)?);
    Ok(())
}
