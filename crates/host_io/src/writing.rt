//! Writing and reporting all of some bytes.
ghost use Rattle.std.specs.Prelude.{◌≡◌, ◌<◌, ◌≤◌, length, OnOk, OnErr, IsErrOf};
ghost use Rattle.host_io.specs.Slots.{SameSlots};
ghost use Rattle.host_io.specs.World.{after_write, after_report};
ghost use Rattle.host_io.specs.Calls.{HasRisen, HasWrittenFront, HasReportedFront};

use crate::{Host, HostErr, Slot};

/// Why not all bytes were written: the host failed, or found no memory.
#[derive(Clone, Copy, Debug, PartialEq, Eq)]
pub enum WriteErr {
    WriteFault,
    NoMemory,
}

/// Writes all the bytes to a slot. After an error a front of them is written.
pub fn write_all<H: Host>(host: &mut H, slot: Slot, bytes: &[u8]) -> Result<(), WriteErr>
    requires { H.may_write host.old slot.number }
    ensures given { SameSlots (H.given host.old) (H.given host.new) }
    ensures may_read { SameSlots (H.may_read host.old) (H.may_read host.new) }
    ensures may_write { SameSlots (H.may_write host.old) (H.may_write host.new) }

    ensures told { H.tells host.old → H.tells host.new }
    ensures all { H.tells host.old → OnOk result (H.world host.new ≡ after_write (H.world host.old) slot.number bytes.now) }
    ensures front { H.tells host.old → OnErr result (HasWrittenFront (H.world host.old) (H.world host.new) slot.number bytes.now) }

    ensures ok { OnOk result (H.faults host.new ≡ H.faults host.old) }
    ensures fault { IsErrOf result WriteErr.WriteFault → HasRisen (H.faults host.old) (H.faults host.new) }
    ensures later { H.faults host.old ≤ H.faults host.new }
{
    let mut done = 0;
    while done < bytes.len() {
        match host.write(slot, &bytes[done..]) {
            Ok(count) => done += count,
            Err(HostErr::Failed) => return Err(WriteErr::WriteFault),
            Err(HostErr::NoMemory) => return Err(WriteErr::NoMemory),
        }
    }
    Ok(())
}

/// Reports all the bytes. After an error a front of them is reported.
pub fn report_all<H: Host>(host: &mut H, bytes: &[u8]) -> Result<(), WriteErr>
    ensures given { SameSlots (H.given host.old) (H.given host.new) }
    ensures may_read { SameSlots (H.may_read host.old) (H.may_read host.new) }
    ensures may_write { SameSlots (H.may_write host.old) (H.may_write host.new) }

    ensures told { H.tells host.old → H.tells host.new }
    ensures all { H.tells host.old → OnOk result (H.world host.new ≡ after_report (H.world host.old) bytes.now) }
    ensures front { H.tells host.old → OnErr result (HasReportedFront (H.world host.old) (H.world host.new) bytes.now) }

    ensures ok { OnOk result (H.faults host.new ≡ H.faults host.old) }
    ensures fault { IsErrOf result WriteErr.WriteFault → HasRisen (H.faults host.old) (H.faults host.new) }
    ensures later { H.faults host.old ≤ H.faults host.new }
{
    let mut done = 0;
    while done < bytes.len() {
        match host.report(&bytes[done..]) {
            Ok(count) => done += count,
            Err(HostErr::Failed) => return Err(WriteErr::WriteFault),
            Err(HostErr::NoMemory) => return Err(WriteErr::NoMemory),
        }
    }
    Ok(())
}
