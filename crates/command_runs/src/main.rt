//! Runs the calls that stand on its standard input, each on a line, over real files, and prints each behind a `$`, its
//! report, and its status with what that says, a broken line with its text.
//!
//! A line `set FILE AT NUMBER MADE` is no call: it makes the file MADE of FILE, with the number in place of the eight
//! bytes at AT, the low byte first.
#![tactic(auto)]

use host_io::OsHost;
use std::alloc::{AllocError, Global};
use std::fs;
use std::io::{self, ErrorKind};
use std::sync::Wait;
use std::thread::Threads;
use zk_top::{NoGate, broken_text, top};

fn words(alloc: Global, line: &str) -> Result<Vec<String>, AllocError> {
    let mut words = Vec::new(alloc);
    for word in line.split(' ') {
        words.push(String::from_str(alloc, word)?)?;
    }
    Ok(words)
}

fn number(text: &str) -> io::Result<u64> {
    text.parse()
        .map_err(|_| io::Error::from(ErrorKind::InvalidInput))
}

// Makes a file of another, with eight bytes replaced.
fn set(rt: &HostRuntime, file: &str, at: &str, value: &str, made: &str) -> io::Result<()> {
    let mut bytes = fs::read(rt, file)?;
    let at = number(at)? as usize;
    let value = number(value)?.to_le_bytes();
    for (byte, new) in bytes.iter_mut().skip(at).zip(value) {
        *byte = new;
    }
    fs::write(rt, made, bytes.as_slice())
}

fn text(bytes: &[u8]) -> &str {
    str::from_utf8(bytes).unwrap_or("?")
}

// Prints the report of the call, its status, and the broken line, if there is one.
fn call(
    rt: &HostRuntime,
    threads: &(impl Threads + Wait + Sync),
    words: &[String],
) -> io::Result<()> {
    let mut host = OsHost::new(rt.alloc(), rt);
    let status = top(threads, rt.alloc(), words, &mut host, &NoGate);
    println!(rt; "status {}: {status}", status.code())?;
    if let Some(line) = broken_text(rt.alloc(), &mut host, words, &status) {
        println!(rt; "in {}: {}", text(&line.space), text(&line.text))?;
    }
    Ok(())
}

fn main(rt: HostRuntime) -> io::Result<()> {
    for line in rt.lines(rt.alloc()) {
        let line = line?;
        println!(rt; "$ {line}")?;
        let words = words(rt.alloc(), line.as_str())?;
        match words.as_slice() {
            [first, file, at, value, made] if first.as_str() == "set" => {
                set(
                    &rt,
                    file.as_str(),
                    at.as_str(),
                    value.as_str(),
                    made.as_str(),
                )?;
            }
            words => call(&rt, &rt, words)?,
        }
    }
    Ok(())
}
