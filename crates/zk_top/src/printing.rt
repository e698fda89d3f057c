//! The command `machine`.
ghost use Rattle.std.specs.Prelude.{◌≡◌, ◌≢◌, ◌≤◌, [], IsErrOf};
ghost use Rattle.host_io.specs.Calls.{HasRisen};
ghost use Rattle.zk_top.specs.Outcome.{Outcome, IsMachineOutcome};
ghost use Rattle.zk_top.specs.Ends.{Ends};
ghost use Rattle.zk_top.specs.Parts.{Comes};

use crate::ending::{finish, refuse};
use gold::Profile;
use host_io::Host;
use machine_text::machine;
use pil_text::print;
use std::alloc::Global;
use zk_words::Status;

// The printed text of the machine's constraints.
fn printed_machine(alloc: Global, profile: Profile) -> Result<Vec<u8>, Status>
    ensures comes { Comes (λ names. IsMachineOutcome names profile) result }
    ensures no_bad_words { IsErrOf result Status.BadWords → ⊥ }
{
    let Ok(pil) = machine(alloc, profile) else {
        return Err(Status::NoMemory);
    };
    match print(alloc, &pil) {
        Ok(text) => Ok(text),
        Err(_) => Err(Status::NoMemory),
    }
}

/// The commands `machine` and `machine wide` (docs/COMMANDS.md): print the text of the machine's
/// constraints.
pub fn print_call<H: Host>(alloc: Global, host: &mut H, profile: Profile) -> Status
    ensures told { H.tells host.old → H.tells host.new }
    // What is answered and reported is the printed text, and nothing is asked for.
    ensures ends { H.tells host.old → (o : Outcome) → IsMachineOutcome [] profile o → Ends o result (H.world host.old) (H.world host.new) }
    ensures later { H.faults host.old ≤ H.faults host.new }
    ensures no_bad_words { result ≢ Status.BadWords }
    // It fails only where the host has failed.
    ensures fault { result ≡ Status.HostFault → HasRisen (H.faults host.old) (H.faults host.new) }
{
    match printed_machine(alloc, profile) {
        Ok(text) => finish(host, Status::Done, &text),
        Err(status) => refuse(alloc, host, status),
    }
}
