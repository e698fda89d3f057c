//! The program `zkw`: it hands its words and the real files to `top`, says on standard error what a refusal is,
//! and ends with the status's code.
#![tactic(auto)]

use host_io::OsHost;
use progress::ProgressHost;
use std::env;
use std::io::{self, ErrorKind, IsTerminal};
use std::process::ExitCode;
use std::sync::Wait;
use std::thread::Threads;
use zk_top::{NoGate, Status, broken_text, top};

/// Memory ran out while the words were taken.
const NO_MEMORY: u8 = 10;

/// The system refuses the words for another cause: one of them isn't UTF-8, say.
const NO_WORDS: u8 = 15;

// The words after the program's name.
fn words(rt: &HostRuntime) -> io::Result<Vec<String>> {
    let mut words = Vec::new(rt.alloc());
    for word in env::args(rt)?.skip(1) {
        words.push(word)?;
    }
    Ok(words)
}

// Does what the words ask for. Where standard error is a terminal it shows there how much was read and written.
fn status_of(rt: &HostRuntime, threads: &(impl Threads + Wait + Sync), words: &[String]) -> Status {
    let mut host = OsHost::new(rt.alloc(), rt);
    if !rt.stderr().is_terminal() {
        return top(threads, rt.alloc(), words, &mut host, &NoGate);
    }
    let mut shown = ProgressHost::new(host, rt.stderr());
    let status = top(threads, rt.alloc(), words, &mut shown, &NoGate);
    shown.end();
    status
}

// Says what a refusal is, and behind that what a broken line says. Where standard error can't be written, the status's
// code is left to say it.
fn say(rt: &HostRuntime, words: &[String], status: &Status) {
    if status.code() == 0 {
        return;
    }
    let mut host = OsHost::new(rt.alloc(), rt);
    let _said = match broken_text(rt.alloc(), &mut host, words, status) {
        Some(line) => {
            let space = str::from_utf8(&line.space).unwrap_or("?");
            let text = str::from_utf8(&line.text).unwrap_or("?");
            eprintln!(rt; "zkw: {status}. In {space}: {text}")
        }
        None => eprintln!(rt; "zkw: {status}"),
    };
}

fn main(rt: HostRuntime) -> ExitCode {
    match words(&rt) {
        Ok(words) => {
            let status = status_of(&rt, &rt, &words);
            say(&rt, &words, &status);
            ExitCode::from(status.code())
        }
        Err(e) if e.kind() == ErrorKind::OutOfMemory => ExitCode::from(NO_MEMORY),
        Err(_) => ExitCode::from(NO_WORDS),
    }
}
