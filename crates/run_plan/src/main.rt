//! Cuts a run into chunks and jobs and prints them, for tests and measurements.
//!
//! `chunks N` runs N additions and the call that halts: it prints how many chunks they are, and each job in the order in
//! which it is handed out, with the chunk, skip and take of each of its parts. `plan K` plans K chunks by made-up counts,
//! the same for each, and prints how many jobs they are and a sum over their parts.
#![tactic(auto)]

mod additions;
mod chunks;
mod full;
#[cfg(test)]
mod tests;

use crate::additions::additions;
use crate::chunks::plan_of;
use crate::full::tally_of;
use planner::Job;
use std::alloc::{AllocError, Global};
use std::env;
use std::io::{self, ErrorKind};
use zk_layout::Air;

fn name(air: Air) -> &'static str {
    match air {
        Air::Main => "Main",
        Air::Mem => "Mem",
        Air::Binary => "Binary",
        Air::Shift => "Shift",
        Air::Arith => "Arith",
        Air::Align => "Align",
        Air::Out => "Out",
    }
}

fn line(alloc: Global, job: &Job) -> Result<String, AllocError> {
    let air = name(job.air);
    let instance = job.instance;
    let mut line = format!(in alloc; "{air} {instance}")?;
    for part in job.parts.as_slice() {
        let (chunk, skip, take) = (part.chunk, part.skip, part.take);
        let part = format!(in alloc; " ({chunk}, {skip}, {take})")?;
        line.push_str(&part)?;
    }
    Ok(line)
}

fn print_chunks(rt: &HostRuntime, count: u32) -> io::Result<()> {
    let planned = plan_of(rt.alloc(), count)?;
    let chunks = planned.chunks;
    println!(rt; "chunks {chunks}")?;
    for job in &planned.jobs {
        rt.println(line(rt.alloc(), job)?)?;
    }
    Ok(())
}

fn print_plan(rt: &HostRuntime, count: u32) -> io::Result<()> {
    let tally = tally_of(rt.alloc(), count)?;
    let (jobs, sum) = (tally.jobs, tally.sum);
    println!(rt; "jobs {jobs}")?;
    println!(rt; "sum {sum}")
}

fn main(rt: HostRuntime) -> io::Result<()> {
    let mut words = env::args(&rt)?.skip(1);
    let command = words.next();
    let number = words.next();
    match (command.as_deref(), number.as_deref().map(str::parse::<u32>)) {
        (Some("chunks"), Some(Ok(count))) => print_chunks(&rt, count),
        (Some("plan"), Some(Ok(count))) => print_plan(&rt, count),
        _ => Err(ErrorKind::InvalidInput.into()),
    }
}
