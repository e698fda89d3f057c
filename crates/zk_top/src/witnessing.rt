//! The command `witness`.
ghost use Rattle.std.specs.Prelude.{◌≡◌, ◌≢◌, ◌≤◌, ◌<◌, List, ℕ, IfOk, IsErrOf};
ghost use Rattle.gold.specs.Shapes.{HaveShape};
ghost use Rattle.gold.specs.declared.shapes.Form.TheVariants.{Two};
ghost use Rattle.zk_layout.specs.Air.{machine_shape_of};
ghost use Rattle.rv_model.specs.Image.{IsLoadable};
ghost use Rattle.host_io.specs.World.{World, Asked};
ghost use Rattle.host_io.specs.Calls.{HasRisen};
ghost use Rattle.zk_words.specs.declared.command.TheConstants.{MOST_WORKERS};
ghost use Rattle.zk_top.specs.Outcome.{Outcome, program_names, of_made, IsWitnessOutcome};
ghost use Rattle.zk_top.specs.Ends.{Asks, AreReadOut, Ends};
ghost use Rattle.zk_top.specs.Parts.{IsMaking, LeadsToTables, Leads};

use crate::ending::{finish, refuse};
use crate::loading::program_of;
use crate::report::run_text;
use crate::workers::tables_by_workers;
use crate::writing::create_tables;
use host_io::Host;
use run_accepted::completeness;
use run_tables::Made;
use rv_model::{Image, RunEnd, run_law};
use sequential::sequential;
use std::alloc::Global;
use std::sync::{Arc, Wait};
use std::thread::Threads;
use wit_pool::Gate;
use zk_words::Status;

/// An image can be run. The call computes nothing.
pub(crate) fn can_run(image: &Image)
    ensures { IsLoadable image.now }
{
    let _entry = image.entry;
}

// The tables of the image's run, made by this thread alone, or how it ends without.
fn tables_alone(alloc: Global, image: Image, steps: u32) -> Result<Made, Status>
    requires { 0 < steps }
    ensures made { IsMaking image steps result }
    ensures shaped { IfOk result (λ made. HaveShape (machine_shape_of Two) made.witness) }
    ensures no_bad_words { IsErrOf result Status.BadWords → ⊥ }
{
    run_law();
    completeness();
    can_run(&image);
    let Ok(image) = Arc::new(alloc, image) else {
        return Err(Status::NoMemory);
    };
    match sequential(alloc, image, steps) {
        Ok(made) => Ok(made),
        Err(RunEnd::Fault(fault)) => Err(Status::RunFault(fault)),
        Err(RunEnd::StepLimit(limit)) => Err(Status::StepLimit(limit)),
        Err(RunEnd::NoMemory) => Err(Status::NoMemory),
    }
}

// The work of the command before the tables are written, by this thread alone.
fn tables_of_program<H: Host>(
    alloc: Global,
    host: &mut H,
    elf: &str,
    input: &str,
    steps: u32,
) -> Result<Made, Status>
    requires { 0 < steps }
    ensures told { H.tells host.old → H.tells host.new }
    ensures leads { H.tells host.old → (tables : List ℕ) (o : Outcome) → IsWitnessOutcome (H.world host.old).contents elf.now input.now tables steps o → LeadsToTables (program_names elf.now input.now) tables o result (H.world host.old) (H.world host.new) }
    ensures shaped { IfOk result (λ made. HaveShape (machine_shape_of Two) made.witness) }
    ensures later { H.faults host.old ≤ H.faults host.new }
    ensures no_bad_words { IsErrOf result Status.BadWords → ⊥ }
    ensures fault { IsErrOf result Status.HostFault → HasRisen (H.faults host.old) (H.faults host.new) }
{
    match program_of(alloc, host, elf, input) {
        Ok(image) => tables_alone(alloc, image, steps),
        Err(status) => Err(status),
    }
}

// The same work, by this thread and by workers.
fn tables_of_program_by_workers<R: Threads + Wait + Sync, H: Host, G: Gate + Sync>(
    rt: &R,
    alloc: Global,
    host: &mut H,
    gate: &G,
    elf: &str,
    input: &str,
    steps: u32,
    workers: u32,
) -> Result<Made, Status>
    requires steps { 0 < steps }
    requires workers { (1 ≤ workers) × (workers ≤ MOST_WORKERS) }
    ensures told { H.tells host.old → H.tells host.new }
    ensures leads { H.tells host.old → (tables : List ℕ) (o : Outcome) → IsWitnessOutcome (H.world host.old).contents elf.now input.now tables steps o → LeadsToTables (program_names elf.now input.now) tables o result (H.world host.old) (H.world host.new) }
    ensures shaped { IfOk result (λ made. HaveShape (machine_shape_of Two) made.witness) }
    ensures later { H.faults host.old ≤ H.faults host.new }
    ensures no_bad_words { IsErrOf result Status.BadWords → ⊥ }
    ensures fault { IsErrOf result Status.HostFault → HasRisen (H.faults host.old) (H.faults host.new) }
{
    match program_of(alloc, host, elf, input) {
        Ok(image) => tables_by_workers(rt, alloc, gate, image, steps, workers),
        Err(status) => Err(status),
    }
}

// Writes the tables to the file of this name, and makes the report.
fn report_of_tables<H: Host>(
    alloc: Global,
    host: &mut H,
    tables: &str,
    made: &Made,
) -> Result<Vec<u8>, Status>
    requires { HaveShape (machine_shape_of Two) made.now.witness }
    ensures told { H.tells host.old → H.tells host.new }
    ensures leads { H.tells host.old → (start : World) (names : List Asked) (o : Outcome) → Asks names start (H.world host.old) → AreReadOut start (H.world host.old) → o ≡ of_made names tables.now made.now.witness made.now.steps made.now.public → Leads o result start (H.world host.new) }
    ensures later { H.faults host.old ≤ H.faults host.new }
    ensures no_bad_words { IsErrOf result Status.BadWords → ⊥ }
    ensures fault { IsErrOf result Status.HostFault → HasRisen (H.faults host.old) (H.faults host.new) }
{
    match create_tables(alloc, host, tables, &made.witness) {
        Ok(()) => match run_text(alloc, made.steps, &made.public) {
            Ok(text) => Ok(text),
            Err(_) => Err(Status::NoMemory),
        },
        Err(status) => Err(status),
    }
}

/// The command `witness ELF INPUT TABLES STEPS 0` (docs/COMMANDS.md): runs the file's program on the input,
/// for at most so many steps, writes the tables of the run to the file TABLES, and reports the run's steps and
/// its public output. Where the run doesn't halt no file is created. It waits for nobody.
pub fn witness_one<H: Host>(
    alloc: Global,
    host: &mut H,
    elf: &str,
    input: &str,
    tables: &str,
    steps: u32,
) -> Status
    requires { 0 < steps }
    ensures told { H.tells host.old → H.tells host.new }
    // What is answered, asked for, written and reported is what the contents of the files come to.
    ensures ends { H.tells host.old → (o : Outcome) → IsWitnessOutcome (H.world host.old).contents elf.now input.now tables.now steps o → Ends o result (H.world host.old) (H.world host.new) }
    ensures later { H.faults host.old ≤ H.faults host.new }
    ensures no_bad_words { result ≢ Status.BadWords }
    // It fails only where the host has failed.
    ensures fault { result ≡ Status.HostFault → HasRisen (H.faults host.old) (H.faults host.new) }
{
    let made = match tables_of_program(alloc, host, elf, input, steps) {
        Ok(made) => made,
        Err(status) => return refuse(alloc, host, status),
    };
    match report_of_tables(alloc, host, tables, &made) {
        Ok(text) => finish(host, Status::Done, &text),
        Err(status) => refuse(alloc, host, status),
    }
}

/// The command `witness ELF INPUT TABLES STEPS WORKERS` (docs/COMMANDS.md): the same by so many workers beside this
/// thread, which makes the run. Whatever their number, the gate and the schedule are, it comes to the same.
pub fn witness_call<R: Threads + Wait + Sync, H: Host, G: Gate + Sync>(
    rt: &R,
    alloc: Global,
    host: &mut H,
    gate: &G,
    elf: &str,
    input: &str,
    tables: &str,
    steps: u32,
    workers: u32,
) -> Status
    requires steps { 0 < steps }
    requires workers { workers ≤ MOST_WORKERS }
    ensures told { H.tells host.old → H.tells host.new }
    // What is answered, asked for, written and reported is what the contents of the files come to.
    ensures ends { H.tells host.old → (o : Outcome) → IsWitnessOutcome (H.world host.old).contents elf.now input.now tables.now steps o → Ends o result (H.world host.old) (H.world host.new) }
    ensures later { H.faults host.old ≤ H.faults host.new }
    ensures no_bad_words { result ≢ Status.BadWords }
    // It fails only where the host has failed.
    ensures fault { result ≡ Status.HostFault → HasRisen (H.faults host.old) (H.faults host.new) }
{
    if workers == 0 {
        return witness_one(alloc, host, elf, input, tables, steps);
    }
    match tables_of_program_by_workers(rt, alloc, host, gate, elf, input, steps, workers) {
        Ok(made) => match report_of_tables(alloc, host, tables, &made) {
            Ok(text) => finish(host, Status::Done, &text),
            Err(status) => refuse(alloc, host, status),
        },
        Err(status) => refuse(alloc, host, status),
    }
}
