//! Checks tables against a constraint text, and says how long it took: `check_bench PIL TABLES [landed]`.
#![tactic(auto)]

ghost use Rattle.pil_ast.specs.Tree.{namespaces};
ghost use Rattle.pil_ast.specs.Columns.{Fits};
ghost use Rattle.pil_ast.specs.Sound.{IsSound};

use pil_ast::{Columns, Pil};
use pil_program::InstanceColumns;
use row_check::Broken;
use std::alloc::{AllocError, Global};
use std::time::Instant;
use std::{env, fs, io};
use wit_columns::TableColumns;

/// What a check found.
#[derive(Debug, Drop)]
enum Outcome {
    Unread,
    Accepted,
    Broken(Broken),
}

fn outcome_of(found: Option<Broken>) -> Outcome {
    match found {
        Some(broken) => Outcome::Broken(broken),
        None => Outcome::Accepted,
    }
}

/// Checks columns by the landed check, or instance by instance.
fn check<C: InstanceColumns>(
    alloc: Global,
    pil: &Pil,
    columns: &C,
    landed: bool,
) -> Result<Outcome, AllocError>
    requires sound { IsSound (namespaces pil.now) }
    requires fits { Fits (namespaces pil.now) (C.values columns.now) }
{
    if landed {
        Ok(outcome_of(bus_check::first_broken(alloc, pil, columns)?))
    } else {
        Ok(outcome_of(pil_checker::first_broken(alloc, pil, columns)?))
    }
}

fn check_tables(
    alloc: Global,
    text: &[u8],
    file: &[u8],
    landed: bool,
) -> Result<Outcome, AllocError> {
    if text.len() > 1 << 20 {
        return Ok(Outcome::Unread);
    }
    let Ok(pil) = pil_text::read(alloc, text) else {
        return Ok(Outcome::Unread);
    };
    let shape = pil.shape(alloc)?;
    let Ok(witness) = tab_file::read(alloc, file, &shape) else {
        return Ok(Outcome::Unread);
    };
    let columns = TableColumns::new(alloc, &witness, &shape)?;
    wit_columns::fits();
    check(alloc, &pil, &columns, landed)
}

fn main(rt: HostRuntime) -> io::Result<()> {
    let mut words = env::args(&rt)?.skip(1);
    let Some(pil) = words.next() else {
        return Ok(());
    };
    let Some(tables) = words.next() else {
        return Ok(());
    };
    let landed = words.next().is_some();
    let text = fs::read(&rt, pil.as_str())?;
    let file = fs::read(&rt, tables.as_str())?;
    let begin = Instant::now(&rt)?;
    let found = check_tables(rt.alloc(), &text, &file, landed)?;
    let took = begin.elapsed(&rt)?;
    println!(rt; "{found:?} in {took:?}")
}
