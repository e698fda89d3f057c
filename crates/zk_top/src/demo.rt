//! The command `demo`.
ghost use Rattle.std.specs.Prelude.{◌≡◌, ◌≢◌, ◌≤◌, ◌⊎◌, ℕ, List, [], IfOk, Some};
ghost use Rattle.std.specs.Arc.{arc_value};
ghost use Rattle.host_io.specs.World.{Asked};
ghost use Rattle.host_io.specs.Calls.{HasRisen};
ghost use Rattle.elf_load.specs.Loads.{Loads};
ghost use Rattle.machine_columns.specs.Accepted.{AreWellFormed, AreAccepted};
ghost use Rattle.demo_program.specs.Demo.{demo_file, IsSize};
ghost use Rattle.zk_top.specs.Outcome.{Outcome, IsDemoOutcome, reporting};
ghost use Rattle.zk_top.specs.Ends.{Ends};
ghost use Rattle.zk_top.specs.Parts.{Halts, IsHalted};

use crate::ending::{finish, refuse};
use crate::report::demo_text;
use crate::witnessing::can_run;
use bus_check::one_verdict;
use demo_program::{DemoKind, demo_elf, demo_runs};
use elf_load::{ElfErr, load, one_answer};
use gold::Witness;
use host_io::Host;
use run_accepted::completeness;
use run_tables::Made;
use rv_model::{Image, RunEnd, run_law};
use sequential::sequential;
use std::alloc::{AllocError, Global};
use std::sync::Arc;
use verdict::{Judgement, verdict};
use zk_words::Status;

/// The run of a demo program may take so many steps.
const DEMO_STEPS: u32 = u32::MAX;

// The image of the program's file: no test of the loader fails.
fn image_of_demo(alloc: Global, number: u64, kind: DemoKind, size: u32) -> Result<Image, AllocError>
    requires { IsSize size }
    ensures { IfOk result (Loads (demo_file number kind size) []) }
{
    demo_runs();
    one_answer();
    let file = demo_elf(alloc, number, kind, size)?;
    match load(alloc, &file, &[]) {
        Ok(image) => Ok(image),
        Err(ElfErr::NoMemory) => Err(AllocError),
        Err(_) => unreachable!(),
    }
}

// The tables of a run that halts.
fn made_of_run(alloc: Global, image: Arc<Image>) -> Result<Made, AllocError>
    requires { Halts (arc_value image) }
    ensures { IfOk result (IsHalted (arc_value image)) }
{
    run_law();
    match sequential(alloc, image, DEMO_STEPS) {
        Ok(made) => Ok(made),
        Err(RunEnd::NoMemory) => Err(AllocError),
        Err(_) => unreachable!(),
    }
}

// Checks tables that are accepted.
#[tactic(auto, unfolding(machine_columns::specs::Accepted::AreAccepted))]
fn check_accepted(alloc: Global, image: &Image, witness: &Witness) -> Result<(), AllocError>
    requires formed { AreWellFormed witness.now }
    requires accepted { AreAccepted image.now witness.now }
{
    one_verdict();
    match verdict(alloc, image, witness)? {
        Judgement::Accepted(_) => Ok(()),
        Judgement::Broken(_) => unreachable!(),
    }
}

// The tables of a run that halts, after they were checked.
fn checked_run(alloc: Global, image: Image) -> Result<Made, AllocError>
    requires { Halts image }
    ensures { IfOk result (IsHalted image) }
{
    run_law();
    completeness();
    can_run(&image);
    let Ok(image) = Arc::new(alloc, image) else {
        return Err(AllocError);
    };
    let shared = Arc::clone(&image)?;
    let made = made_of_run(alloc, shared)?;
    check_accepted(alloc, &image, &made.witness)?;
    Ok(made)
}

// The report of a demo program.
fn report_of_demo(
    alloc: Global,
    number: u64,
    kind: DemoKind,
    size: u32,
) -> Result<Vec<u8>, AllocError>
    requires { IsSize size }
    ensures { IfOk result (λ text. (names : List Asked) (o : Outcome) → IsDemoOutcome names number kind size o → o ≡ reporting names Status.Done text.items) }
{
    demo_runs();
    one_answer();
    let image = image_of_demo(alloc, number, kind, size)?;
    let made = checked_run(alloc, image)?;
    demo_text(alloc, made.steps, &made.public, &made.witness)
}

/// The command `demo NUMBER KIND SIZE` (docs/COMMANDS.md): makes a program, runs it without input, checks the tables of
/// the run, and reports the run's steps and public output and how many tables there are of each air.
pub fn demo_call<H: Host>(
    alloc: Global,
    host: &mut H,
    number: u64,
    kind: DemoKind,
    size: u32,
) -> Status
    requires { IsSize size }
    ensures told { H.tells host.old → H.tells host.new }
    // What is answered and reported is what the program comes to, and nothing is asked for.
    ensures ends { H.tells host.old → (o : Outcome) → IsDemoOutcome [] number kind size o → Ends o result (H.world host.old) (H.world host.new) }
    ensures later { H.faults host.old ≤ H.faults host.new }
    ensures no_bad_words { result ≢ Status.BadWords }
    // The program loads and halts, and its tables are accepted.
    ensures only { (result ≡ Status.Done) ⊎ ((result ≡ Status.HostFault) ⊎ (result ≡ Status.NoMemory)) }
    // It fails only where the host has failed.
    ensures fault { result ≡ Status.HostFault → HasRisen (H.faults host.old) (H.faults host.new) }
{
    match report_of_demo(alloc, number, kind, size) {
        Ok(text) => finish(host, Status::Done, &text),
        Err(_) => refuse(alloc, host, Status::NoMemory),
    }
}
