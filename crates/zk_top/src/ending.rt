//! The last part of a command: its report.
ghost use Rattle.std.specs.Prelude.{◌≡◌, ◌≤◌, ◌⊎◌, [], Some};
ghost use Rattle.host_io.specs.World.{World};
ghost use Rattle.host_io.specs.Calls.{HasRisen};
ghost use Rattle.zk_top.specs.Outcome.{Outcome};
ghost use Rattle.zk_top.specs.Ends.{HasReported, Ends};
ghost use Rattle.zk_top.specs.Parts.{IsDecided, IsOrEarly, Stops};

use host_io::{Host, WriteErr, report_all};
use std::alloc::Global;
use zk_words::{Status, status_line};

/// Reports the text of a status, which the work before has decided, and ends with it.
pub fn finish<H: Host>(host: &mut H, status: Status, text: &[u8]) -> Status
    requires { IsDecided status }
    ensures told { H.tells host.old → H.tells host.new }
    ensures ends { H.tells host.old → (start : World) (o : Outcome) → o.status ≡ Some status → o.report ≡ text.now → HasReported o [] start (H.world host.old) → Ends o result start (H.world host.new) }
    ensures status { IsOrEarly status result }
    ensures later { H.faults host.old ≤ H.faults host.new }
    ensures fault { result ≡ Status.HostFault → HasRisen (H.faults host.old) (H.faults host.new) }
{
    match report_all(host, text) {
        Ok(()) => status,
        Err(WriteErr::WriteFault) => Status::HostFault,
        Err(WriteErr::NoMemory) => Status::NoMemory,
    }
}

/// Reports how a command stopped, and ends so.
pub fn refuse<H: Host>(alloc: Global, host: &mut H, status: Status) -> Status
    ensures told { H.tells host.old → H.tells host.new }
    ensures ends { H.tells host.old → (start : World) (o : Outcome) → Stops o status start (H.world host.old) → Ends o result start (H.world host.new) }
    ensures status { IsOrEarly status result }
    ensures later { H.faults host.old ≤ H.faults host.new }
    ensures fault { result ≡ Status.HostFault → (status ≡ Status.HostFault) ⊎ HasRisen (H.faults host.old) (H.faults host.new) }
{
    match status {
        Status::Done | Status::HostFault | Status::NoMemory => status,
        Status::Broken(_)
        | Status::BadWords
        | Status::BadElf(_)
        | Status::RunFault(_)
        | Status::StepLimit(_)
        | Status::BadTables(_)
        | Status::BadPil(_)
        | Status::TooLarge(_) => match status_line(alloc, &status) {
            Ok(line) => finish(host, status, &line),
            Err(_) => Status::NoMemory,
        },
    }
}
