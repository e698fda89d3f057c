//! The whole program over a host.
ghost use Rattle.std.specs.Prelude.{◌≡◌, ◌≤◌, ◌⊎◌, List, ℕ};
ghost use Rattle.host_io.specs.Calls.{HasRisen};
ghost use Rattle.zk_words.specs.Words.{Command as Asked, Reads, texts};
ghost use Rattle.zk_top.specs.Outcome.{Outcome, IsOutcome};
ghost use Rattle.zk_top.specs.Ends.{Ends};
ghost use Rattle.zk_top.specs.Headline.{Headline};

use crate::checking::pil_call;
use crate::demo::demo_call;
use crate::ending::refuse;
use crate::judging::check_call;
use crate::laws::headline;
use crate::printing::print_call;
use crate::running::run_call;
use crate::witnessing::witness_call;
use host_io::Host;
use std::alloc::Global;
use std::sync::Wait;
use std::thread::Threads;
use wit_pool::Gate;
use zk_words::{Command, Status, read_words};

/// The whole program: does what the words ask for (docs/COMMANDS.md), over the host, and answers how it
/// ended. Nothing that the host is asked for, given or told goes beyond the words' outcome. What the gate does and in which
/// order threads run changes no clause.
pub fn top<R: Threads + Wait + Sync, H: Host, G: Gate + Sync>(
    rt: &R,
    alloc: Global,
    words: &[String],
    host: &mut H,
    gate: &G,
) -> Status
    ensures told { H.tells host.old → H.tells host.new }
    // What is answered, asked for, written and reported is what the words and the contents of the files come to.
    ensures ends { H.tells host.old → (o : Outcome) → IsOutcome (H.world host.old).contents (texts words.now) o → Ends o result (H.world host.old) (H.world host.new) }
    ensures later { H.faults host.old ≤ H.faults host.new }
    // It fails only where the host has failed.
    ensures fault { result ≡ Status.HostFault → HasRisen (H.faults host.old) (H.faults host.new) }
    // Whatever the host tells, words that read as no command are told apart from those that do.
    ensures bad_words { result ≡ Status.BadWords → (command : Asked) → Reads (texts words.now) command → ⊥ }
    // What `witness` and `check` come to is the headline's.
    ensures headline { Headline }
    ensures no_command { ((command : Asked) → Reads (texts words.now) command → ⊥) → (result ≡ Status.BadWords) ⊎ ((result ≡ Status.HostFault) ⊎ (result ≡ Status.NoMemory)) }
{
    headline();
    match read_words(words) {
        Some(Command::Run { elf, input, steps }) => run_call(alloc, host, elf, input, steps),
        Some(
            Command::Witness {
                elf,
                input,
                tables,
                steps,
                workers,
            },
        ) => witness_call(rt, alloc, host, gate, elf, input, tables, steps, workers),
        Some(Command::Check { elf, input, tables }) => check_call(alloc, host, elf, input, tables),
        Some(Command::Pil { text, tables }) => pil_call(alloc, host, text, tables),
        Some(Command::Machine { profile }) => print_call(alloc, host, profile),
        Some(Command::Demo { number, kind, size }) => demo_call(alloc, host, number, kind, size),
        None => refuse(alloc, host, Status::BadWords),
    }
}
