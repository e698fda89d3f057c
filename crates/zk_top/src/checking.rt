//! The command `pil`.
ghost use Rattle.std.specs.Prelude.{◌≡◌, ◌≢◌, ◌≤◌, length, IfOk, IfErr, IsErrOf};
ghost use Rattle.pil_ast.specs.Tree.{namespaces};
ghost use Rattle.pil_ast.specs.Columns.{Fits};
ghost use Rattle.pil_ast.specs.Sound.{IsSound};
ghost use Rattle.host_io.specs.Calls.{HasRisen};
ghost use Rattle.zk_top.specs.Outcome.{Outcome, OfLines, OfTables, IsPilOutcome};
ghost use Rattle.zk_top.specs.Ends.{Ends};
ghost use Rattle.zk_top.specs.Parts.{Comes, Leads, IsOnlyText, IsTextRefusal};

use crate::ending::{finish, refuse};
use crate::files::{file_of, stopped};
use crate::report::pil_text;
use crate::tables::{TABLES_LIMIT, tables_of};
use bus_check::one_verdict;
use host_io::Host;
use pil_ast::{Columns, Pil};
use pil_checker::first_broken;
use pil_program::InstanceColumns;
use pil_text::{PilKind, one_answer};
use std::alloc::Global;
use wit_columns::TableColumns;
use zk_words::{Status, Which};

/// A constraint text has at most so many bytes.
pub const TEXT_LIMIT: u64 = 1 << 20;

// The constraints of a text.
fn constraints_of(alloc: Global, text: &[u8]) -> Result<Pil, Status>
    requires { length text.now ≤ TEXT_LIMIT }
    ensures only { IfOk result (λ pil. IsOnlyText text.now (namespaces pil)) }
    ensures sound { IfOk result (λ pil. IsSound (namespaces pil)) }
    ensures refused { IfErr result (IsTextRefusal text.now) }
{
    one_answer();
    match pil_text::read(alloc, text) {
        Ok(pil) => Ok(pil),
        Err(e) => match e.kind {
            PilKind::NoMemory => Err(Status::NoMemory),
            _ => Err(Status::BadPil(e)),
        },
    }
}

// The report of the lines, or how the command ends without: where one is broken, by the first.
fn verdict<C: InstanceColumns>(alloc: Global, pil: &Pil, columns: &C) -> Result<Vec<u8>, Status>
    requires sound { IsSound (namespaces pil.now) }
    requires fits { Fits (namespaces pil.now) (C.values columns.now) }
    ensures comes { Comes (λ names. OfLines names (namespaces pil.now) (C.values columns.now)) result }
    ensures no_bad_words { IsErrOf result Status.BadWords → ⊥ }
{
    one_verdict();
    match first_broken(alloc, pil, columns) {
        Ok(Some(broken)) => Err(Status::Broken(broken)),
        Ok(None) => match pil_text(alloc, pil, columns) {
            Ok(text) => Ok(text),
            Err(_) => Err(Status::NoMemory),
        },
        Err(_) => Err(Status::NoMemory),
    }
}

// The report of a table file under the constraints, or how the command ends without. The file is let
// go once its tables are read.
fn report_of_tables(alloc: Global, pil: &Pil, file: Vec<u8>) -> Result<Vec<u8>, Status>
    requires { IsSound (namespaces pil.now) }
    ensures comes { Comes (λ names. OfTables names (namespaces pil.now) file.items) result }
    ensures no_bad_words { IsErrOf result Status.BadWords → ⊥ }
{
    let Ok(shape) = pil.shape(alloc) else {
        return Err(Status::NoMemory);
    };
    let witness = match tables_of(alloc, file, &shape) {
        Ok(witness) => witness,
        Err(status) => return Err(status),
    };
    let Ok(columns) = TableColumns::new(alloc, &witness, &shape) else {
        return Err(Status::NoMemory);
    };
    wit_columns::fits();
    verdict(alloc, pil, &columns)
}

// The work of the command up to its report.
fn work<H: Host>(alloc: Global, host: &mut H, pil: &str, tables: &str) -> Result<Vec<u8>, Status>
    ensures told { H.tells host.old → H.tells host.new }
    ensures leads { H.tells host.old → (o : Outcome) → IsPilOutcome (H.world host.old).contents pil.now tables.now o → Leads o result (H.world host.old) (H.world host.new) }
    ensures later { H.faults host.old ≤ H.faults host.new }
    ensures no_bad_words { IsErrOf result Status.BadWords → ⊥ }
    ensures fault { IsErrOf result Status.HostFault → HasRisen (H.faults host.old) (H.faults host.new) }
{
    let text = match file_of(alloc, host, pil, TEXT_LIMIT) {
        Ok(text) => text,
        Err(e) => return Err(stopped(e, Which::Pil)),
    };
    let pil = match constraints_of(alloc, &text) {
        Ok(pil) => pil,
        Err(status) => return Err(status),
    };
    match file_of(alloc, host, tables, TABLES_LIMIT) {
        Ok(file) => report_of_tables(alloc, &pil, file),
        Err(e) => Err(stopped(e, Which::Tables)),
    }
}

/// The command `pil PILFILE TABLES` (docs/COMMANDS.md): reads the constraint text and the tables, finds
/// the first broken line, and where there is none reports that the tables are accepted, and the publics.
pub fn pil_call<H: Host>(alloc: Global, host: &mut H, pil: &str, tables: &str) -> Status
    ensures told { H.tells host.old → H.tells host.new }
    // What is answered, asked for and reported is what the contents of the files come to.
    ensures ends { H.tells host.old → (o : Outcome) → IsPilOutcome (H.world host.old).contents pil.now tables.now o → Ends o result (H.world host.old) (H.world host.new) }
    ensures later { H.faults host.old ≤ H.faults host.new }
    ensures no_bad_words { result ≢ Status.BadWords }
    // It fails only where the host has failed.
    ensures fault { result ≡ Status.HostFault → HasRisen (H.faults host.old) (H.faults host.new) }
{
    match work(alloc, host, pil, tables) {
        Ok(text) => finish(host, Status::Done, &text),
        Err(status) => refuse(alloc, host, status),
    }
}
