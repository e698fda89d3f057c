//! The command `run`.
ghost use Rattle.std.specs.Prelude.{◌≡◌, ◌≢◌, ◌≤◌, ◌<◌, IsErrOf};
ghost use Rattle.rv_model.specs.Run.{end_within};
ghost use Rattle.host_io.specs.Calls.{HasRisen};
ghost use Rattle.zk_top.specs.Outcome.{Outcome, IsRunOutcome, of_run};
ghost use Rattle.zk_top.specs.Ends.{Ends};
ghost use Rattle.zk_top.specs.Parts.{Leads, Comes};

use crate::emulation::emulate;
use crate::ending::{finish, refuse};
use crate::loading::program_of;
use crate::report::run_text;
use host_io::Host;
use rv_model::{Image, RunEnd};
use std::alloc::Global;
use zk_words::Status;

// The report of the image's run, or how it ends without.
fn report_of_run(alloc: Global, image: Image, steps: u32) -> Result<Vec<u8>, Status>
    ensures comes { Comes (λ names o. o ≡ of_run names steps (end_within image steps)) result }
    ensures no_bad_words { IsErrOf result Status.BadWords → ⊥ }
{
    match emulate(alloc, image, steps) {
        Ok(ran) => match run_text(alloc, ran.steps, &ran.public) {
            Ok(text) => Ok(text),
            Err(_) => Err(Status::NoMemory),
        },
        Err(RunEnd::Fault(fault)) => Err(Status::RunFault(fault)),
        Err(RunEnd::StepLimit(limit)) => Err(Status::StepLimit(limit)),
        Err(RunEnd::NoMemory) => Err(Status::NoMemory),
    }
}

// The work of the command up to its report.
fn work<H: Host>(
    alloc: Global,
    host: &mut H,
    elf: &str,
    input: &str,
    steps: u32,
) -> Result<Vec<u8>, Status>
    ensures told { H.tells host.old → H.tells host.new }
    ensures leads { H.tells host.old → (o : Outcome) → IsRunOutcome (H.world host.old).contents elf.now input.now steps o → Leads o result (H.world host.old) (H.world host.new) }
    ensures later { H.faults host.old ≤ H.faults host.new }
    ensures no_bad_words { IsErrOf result Status.BadWords → ⊥ }
    ensures fault { IsErrOf result Status.HostFault → HasRisen (H.faults host.old) (H.faults host.new) }
{
    match program_of(alloc, host, elf, input) {
        Ok(image) => report_of_run(alloc, image, steps),
        Err(status) => Err(status),
    }
}

/// The command `run ELF INPUT STEPS` (docs/COMMANDS.md): runs the file's program on the input, for at
/// most so many steps, and reports its steps and its public output.
pub fn run_call<H: Host>(alloc: Global, host: &mut H, elf: &str, input: &str, steps: u32) -> Status
    requires { 0 < steps }
    ensures told { H.tells host.old → H.tells host.new }
    // What is answered, asked for and reported is what the contents of the files come to.
    ensures ends { H.tells host.old → (o : Outcome) → IsRunOutcome (H.world host.old).contents elf.now input.now steps o → Ends o result (H.world host.old) (H.world host.new) }
    ensures later { H.faults host.old ≤ H.faults host.new }
    ensures no_bad_words { result ≢ Status.BadWords }
    // It fails only where the host has failed.
    ensures fault { result ≡ Status.HostFault → HasRisen (H.faults host.old) (H.faults host.new) }
{
    match work(alloc, host, elf, input, steps) {
        Ok(text) => finish(host, Status::Done, &text),
        Err(status) => refuse(alloc, host, status),
    }
}
