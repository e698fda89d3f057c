//! Runs the guest programs of guest/ through the whole program, over real files, and so prints their reports.
#![tactic(auto)]

use host_io::OsHost;
use std::alloc::{AllocError, Global};
use std::process::ExitCode;
use zk_top::{NoGate, top};
use zk_words::Status;

const GUESTS: [&str; 5] = ["products", "sha256", "sieve", "sorting", "word_count"];

// The words that run a guest on its input, for as many steps as it takes.
fn words(alloc: Global, guest: &str) -> Result<Vec<String>, AllocError> {
    let mut words = Vec::new(alloc);
    words.push(String::from_str(alloc, "run")?)?;
    words.push(format!(in alloc; "{guest}.elf")?)?;
    words.push(format!(in alloc; "{guest}.input")?)?;
    words.push(String::from_str(alloc, "4294967295")?)?;
    Ok(words)
}

fn main(rt: HostRuntime) -> ExitCode {
    let alloc = rt.alloc();
    let mut host = OsHost::new(alloc, &rt);
    for guest in GUESTS {
        let Ok(words) = words(alloc, guest) else {
            return ExitCode::from(Status::NoMemory.code());
        };
        let code = top(&rt, alloc, &words, &mut host, &NoGate).code();
        if code != 0 {
            return ExitCode::from(code);
        }
    }
    ExitCode::SUCCESS
}
