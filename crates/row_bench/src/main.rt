//! Makes the rows of Main and of Mem of a run, and says how long it took: `row_bench ELF INPUT STEPS`. It prints the steps, the
//! tables of each air, a sum over all their values, and the time from the loaded program to the last table.
#![tactic(auto)]

ghost use Rattle.std.specs.Prelude.{◌+◌, ◌≤◌, ◌<◌, length};

mod progress;
mod run;
mod whole;

use crate::progress::Made;
use crate::run::rows_of_run;
use elf_load::load;
use gold::Table;
use rv_model::{INPUT_LEN, Image};
use std::alloc::Global;
use std::io::{self, ErrorKind};
use std::sync::Arc;
use std::time::Instant;
use std::{env, fs};

/// The factor of the sum: each value is added to the factor times the sum before it, modulo 2^64.
const FACTOR: u64 = 0x0000_0100_0000_01B3;

fn sum_of(sum: u64, table: &Table) -> u64 {
    let mut sum = sum;
    for column in table.columns.as_slice() {
        for value in column.as_slice() {
            sum = sum.wrapping_mul(FACTOR).wrapping_add(*value);
        }
    }
    sum
}

// The sum over Main's tables and then Mem's, column by column.
fn sum_of_tables(made: &Made) -> u64 {
    let mut sum = 0;
    for table in &made.main {
        sum = sum_of(sum, table);
    }
    for table in &made.mem {
        sum = sum_of(sum, table);
    }
    sum
}

fn image_of(alloc: Global, file: &[u8], input: &[u8]) -> io::Result<Arc<Image>> {
    if input.len() as u64 > INPUT_LEN - 8 {
        return Err(ErrorKind::InvalidInput.into());
    }
    match load(alloc, file, input) {
        Ok(image) => Ok(Arc::new(alloc, image)?),
        Err(_) => Err(ErrorKind::InvalidData.into()),
    }
}

fn measure(rt: &HostRuntime, image: Arc<Image>, limit: u32) -> io::Result<()>
    requires { 0 < limit }
{
    let begin = Instant::now(rt)?;
    let Ok(made) = rows_of_run(rt.alloc(), image, limit) else {
        return Err(ErrorKind::Other.into());
    };
    let took = begin.elapsed(rt)?.as_micros();
    let (steps, main, mem) = (made.steps, made.main.len(), made.mem.len());
    let sum = sum_of_tables(&made);
    println!(rt; "steps {steps} main {main} mem {mem} sum {sum} microseconds {took}")
}

fn main(rt: HostRuntime) -> io::Result<()> {
    let mut words = env::args(&rt)?.skip(1);
    let Some(elf) = words.next() else {
        return Ok(());
    };
    let Some(input) = words.next() else {
        return Ok(());
    };
    let Some(steps) = words.next() else {
        return Ok(());
    };
    let limit = match steps.as_str().parse::<u32>() {
        Ok(0) | Err(_) => return Err(ErrorKind::InvalidInput.into()),
        Ok(limit) => limit,
    };
    let file = fs::read(&rt, elf.as_str())?;
    let data = fs::read(&rt, input.as_str())?;
    let image = image_of(rt.alloc(), &file, &data)?;
    measure(&rt, image, limit)
}
