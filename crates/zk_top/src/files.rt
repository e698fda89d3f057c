//! Reading files.
ghost use Rattle.std.specs.Prelude.{◌≡◌, ◌<◌, ◌≤◌, ◌+◌, ◌^◌, length, IfOk, IfErr, OnOk, IsErrOf};
ghost use Rattle.host_io.specs.World.{Opened};
ghost use Rattle.host_io.specs.Calls.{HasRisen};
ghost use Rattle.zk_top.specs.Parts.{IsRead, IsReadInto, IsNotRead, stop_of};

use host_io::{Host, HostErr, ReadErr, Sink, read_all, read_into};
use std::alloc::Global;
use zk_words::{Status, Which};

/// Why a file isn't had.
#[derive(Clone, Copy, Debug, PartialEq, Eq)]
pub enum FileErr {
    TooLarge,
    HostFault,
    NoMemory,
}

/// The whole file of that name, which has at most `limit` bytes.
pub fn file_of<H: Host>(
    alloc: Global,
    host: &mut H,
    name: &str,
    limit: u64,
) -> Result<Vec<u8>, FileErr>
    ensures told { H.tells host.old → H.tells host.new }
    ensures fits { IfOk result (λ bytes. length bytes.items ≤ limit) }
    ensures read { H.tells host.old → IfOk result (λ bytes. IsRead (Opened name.now) ((H.world host.old).contents name.now) limit bytes.items (H.world host.old) (H.world host.new)) }
    ensures not_read { H.tells host.old → IfErr result (λ e. IsNotRead (Opened name.now) ((H.world host.old).contents name.now) limit e (H.world host.old) (H.world host.new)) }
    ensures later { H.faults host.old ≤ H.faults host.new }
    ensures fault { IsErrOf result FileErr.HostFault → HasRisen (H.faults host.old) (H.faults host.new) }
{
    let slot = match host.open(name) {
        Ok(slot) => slot,
        Err(HostErr::Failed) => return Err(FileErr::HostFault),
        Err(HostErr::NoMemory) => return Err(FileErr::NoMemory),
    };
    match read_all(alloc, host, slot, limit) {
        Ok(bytes) => Ok(bytes),
        Err(ReadErr::ReadFault) => Err(FileErr::HostFault),
        Err(ReadErr::TooLarge) => Err(FileErr::TooLarge),
        Err(ReadErr::NoMemory) => Err(FileErr::NoMemory),
    }
}

/// Gives the whole file of that name, which has at most `limit` bytes, to a sink.
pub fn file_into<H: Host, S: Sink>(
    alloc: Global,
    host: &mut H,
    name: &str,
    limit: u64,
    sink: &mut S,
) -> Result<(), FileErr>
    requires ready { S.ready sink.old }
    requires room { S.taken sink.old + limit < 2 ^ 64 }
    ensures told { H.tells host.old → H.tells host.new }
    ensures read { H.tells host.old → OnOk result (IsReadInto (λ start bytes. S.given start sink.old bytes) (λ start bytes. S.given start sink.new bytes) (Opened name.now) ((H.world host.old).contents name.now) limit (H.world host.old) (H.world host.new)) }
    ensures ready { OnOk result (S.ready sink.new) }
    ensures not_read { H.tells host.old → IfErr result (λ e. IsNotRead (Opened name.now) ((H.world host.old).contents name.now) limit e (H.world host.old) (H.world host.new)) }
    ensures later { H.faults host.old ≤ H.faults host.new }
    ensures fault { IsErrOf result FileErr.HostFault → HasRisen (H.faults host.old) (H.faults host.new) }
{
    let slot = match host.open(name) {
        Ok(slot) => slot,
        Err(HostErr::Failed) => return Err(FileErr::HostFault),
        Err(HostErr::NoMemory) => return Err(FileErr::NoMemory),
    };
    match read_into(alloc, host, slot, limit, sink) {
        Ok(()) => Ok(()),
        Err(ReadErr::ReadFault) => Err(FileErr::HostFault),
        Err(ReadErr::TooLarge) => Err(FileErr::TooLarge),
        Err(ReadErr::NoMemory) => Err(FileErr::NoMemory),
    }
}

/// How a command stops where the file isn't had.
pub fn stopped(error: FileErr, which: Which) -> Status
    ensures { result ≡ stop_of error which }
{
    match error {
        FileErr::TooLarge => Status::TooLarge(which),
        FileErr::HostFault => Status::HostFault,
        FileErr::NoMemory => Status::NoMemory,
    }
}
