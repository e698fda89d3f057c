//! The command `check`.
ghost use Rattle.std.specs.Prelude.{◌≡◌, ◌≢◌, ◌≤◌, List, ℕ, IsErrOf};
ghost use Rattle.rv_model.specs.Image.{Img};
ghost use Rattle.host_io.specs.Calls.{HasRisen};
ghost use Rattle.file_verdict.specs.Standing.{IsReady, StandsForFile};
ghost use Rattle.zk_top.specs.Outcome.{Outcome, OfMachineTables, IsCheckOutcome};
ghost use Rattle.zk_top.specs.Ends.{Ends};
ghost use Rattle.zk_top.specs.Headline.{CheckHeadline};
ghost use Rattle.zk_top.specs.Parts.{Comes, Leads};

use crate::ending::{finish, refuse};
use crate::files::{file_into, stopped};
use crate::laws::check_headline;
use crate::loading::program_of;
use crate::report::check_text;
use crate::tables::TABLES_LIMIT;
use bus_check::one_verdict;
use file_verdict::FileVerdict;
use host_io::Host;
use std::alloc::Global;
use tab_file::TabKind;
use tab_file::laws::{one_text, reads_or_fails};
use verdict::Judgement;
use zk_words::{Status, Which};

// The report of a table file, all of which has come, or how the command ends without: by the first item that fails, or the
// first broken line.
#[tactic(auto, unfolding(machine_columns::specs::Accepted::AreAccepted))]
fn report_of_file(alloc: Global, file: FileVerdict) -> Result<Vec<u8>, Status>
    requires { IsReady file }
    ensures comes { (image : Img) (bytes : List ℕ) → StandsForFile image bytes file → Comes (λ names. OfMachineTables names image bytes) result }
    ensures no_bad_words { IsErrOf result Status.BadWords → ⊥ }
    ensures no_fault { IsErrOf result Status.HostFault → ⊥ }
{
    one_verdict();
    reads_or_fails();
    one_text();
    match file.finish() {
        Ok(Judgement::Broken(broken)) => Err(Status::Broken(broken)),
        Ok(Judgement::Accepted(public)) => match check_text(alloc, &public) {
            Ok(text) => Ok(text),
            Err(_) => Err(Status::NoMemory),
        },
        Err(e) => match e.kind {
            TabKind::NoMemory => Err(Status::NoMemory),
            _ => Err(Status::BadTables(e)),
        },
    }
}

// The work of the command up to its report.
fn work<H: Host>(
    alloc: Global,
    host: &mut H,
    elf: &str,
    input: &str,
    tables: &str,
) -> Result<Vec<u8>, Status>
    ensures told { H.tells host.old → H.tells host.new }
    ensures leads { H.tells host.old → (o : Outcome) → IsCheckOutcome (H.world host.old).contents elf.now input.now tables.now o → Leads o result (H.world host.old) (H.world host.new) }
    ensures later { H.faults host.old ≤ H.faults host.new }
    ensures no_bad_words { IsErrOf result Status.BadWords → ⊥ }
    ensures fault { IsErrOf result Status.HostFault → HasRisen (H.faults host.old) (H.faults host.new) }
{
    let image = match program_of(alloc, host, elf, input) {
        Ok(image) => image,
        Err(status) => return Err(status),
    };
    let Ok(mut file) = FileVerdict::new(alloc, image) else {
        return Err(Status::NoMemory);
    };
    match file_into(alloc, host, tables, TABLES_LIMIT, &mut file) {
        Ok(()) => report_of_file(alloc, file),
        Err(e) => Err(stopped(e, Which::Tables)),
    }
}

/// The command `check ELF INPUT TABLES` (docs/COMMANDS.md): says whether the tables are accepted for the
/// file and the input, with the public output that they have, or the first line that they break. It makes no run. It reads
/// the table file in pieces and keeps one table at a time.
pub fn check_call<H: Host>(
    alloc: Global,
    host: &mut H,
    elf: &str,
    input: &str,
    tables: &str,
) -> Status
    ensures told { H.tells host.old → H.tells host.new }
    // What is answered, asked for and reported is what the contents of the files come to.
    ensures ends { H.tells host.old → (o : Outcome) → IsCheckOutcome (H.world host.old).contents elf.now input.now tables.now o → Ends o result (H.world host.old) (H.world host.new) }
    ensures later { H.faults host.old ≤ H.faults host.new }
    ensures no_bad_words { result ≢ Status.BadWords }
    // It fails only where the host has failed.
    ensures fault { result ≡ Status.HostFault → HasRisen (H.faults host.old) (H.faults host.new) }
    // What it comes to is the headline's.
    ensures headline { CheckHeadline }
{
    check_headline();
    match work(alloc, host, elf, input, tables) {
        Ok(text) => finish(host, Status::Done, &text),
        Err(status) => refuse(alloc, host, status),
    }
}
