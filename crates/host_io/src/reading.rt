//! Reading all of a file.
ghost use Rattle.std.specs.Prelude.{◌≡◌, ◌<◌, ◌≤◌, ◌+◌, ◌^◌, length, IfOk, OnOk, OnErr, IsErrOf, MatchResult};
ghost use Rattle.host_io.specs.Slots.{SameSlots, LosesSlot};
ghost use Rattle.host_io.specs.World.{after_read};
ghost use Rattle.host_io.specs.Calls.{HasRisen, HasGiven, HasReadFront};

use crate::sink::Kept;
use crate::{Host, Sink, Slot};
use std::alloc::{AllocError, Global};

/// Why a file wasn't read whole: the host failed, more bytes came than allowed, or memory ran out.
#[derive(Clone, Copy, Debug, PartialEq, Eq)]
pub enum ReadErr {
    ReadFault,
    TooLarge,
    NoMemory,
}

/// How many bytes are asked for in one call.
const PIECE: usize = 65_536;

/// Gives all that is left of a slot to a sink, if these are at most `max` bytes. They come through one buffer and are
/// not kept. After an error a front of them may have been taken, and the sink is of no more use.
///
/// # Errors
///
/// The host failed, more bytes came than allowed, or memory ran out, here or in the sink.
pub fn read_into<H: Host, S: Sink>(
    alloc: Global,
    host: &mut H,
    slot: Slot,
    max: u64,
    sink: &mut S,
) -> Result<(), ReadErr>
    requires may { H.may_read host.old slot.number }
    requires ready { S.ready sink.old }
    requires room { S.taken sink.old + max < 2 ^ 64 }
    ensures given { SameSlots (H.given host.old) (H.given host.new) }
    ensures may_read { MatchResult result (λ _. LosesSlot (H.may_read host.old) (H.may_read host.new) slot.number)
        (λ e. SameSlots (H.may_read host.old) (H.may_read host.new)) }
    ensures may_write { SameSlots (H.may_write host.old) (H.may_write host.new) }

    ensures told { H.tells host.old → H.tells host.new }
    // All bytes that were left came to the sink, in order.
    ensures all { OnOk result (HasGiven max (λ start bytes. S.given start sink.old bytes) (λ start bytes. S.given start sink.new bytes) (H.tells host.old) (H.world host.old) (H.world host.new) slot.number) }
    ensures ready { OnOk result (S.ready sink.new) }
    ensures front { H.tells host.old → OnErr result (HasReadFront (H.world host.old) (H.world host.new) slot.number) }
    ensures too_large { H.tells host.old → IsErrOf result ReadErr.TooLarge → max < length ((H.world host.old).left slot.number) }

    // No read failed before all bytes came or `TooLarge` was answered.
    ensures ok { OnOk result (H.faults host.new ≡ H.faults host.old) }
    ensures no_fault { IsErrOf result ReadErr.TooLarge → H.faults host.new ≡ H.faults host.old }
    ensures fault { IsErrOf result ReadErr.ReadFault → HasRisen (H.faults host.old) (H.faults host.new) }
    ensures later { H.faults host.old ≤ H.faults host.new }
{
    let Ok(mut storage) = zeros(alloc, PIECE) else {
        return Err(ReadErr::NoMemory);
    };
    let buffer = storage.as_mut_slice();
    let mut done: u64 = 0;
    loop {
        let Ok(count) = host.read(slot, buffer) else {
            return Err(ReadErr::ReadFault);
        };
        if count == 0 {
            return Ok(());
        }
        if count as u64 > max - done {
            return Err(ReadErr::TooLarge);
        }
        let Ok(()) = sink.take(&buffer[..count]) else {
            return Err(ReadErr::NoMemory);
        };
        done += count as u64;
    }
}

/// All that is left of a slot, if these are at most `max` bytes. After an error a front of it may
/// have been taken.
pub fn read_all<H: Host>(
    alloc: Global,
    host: &mut H,
    slot: Slot,
    max: u64,
) -> Result<Vec<u8>, ReadErr>
    requires { H.may_read host.old slot.number }
    ensures fits { IfOk result (λ bytes. length bytes.items ≤ max) }
    ensures given { SameSlots (H.given host.old) (H.given host.new) }
    ensures may_read { MatchResult result (λ bytes. LosesSlot (H.may_read host.old) (H.may_read host.new) slot.number)
        (λ e. SameSlots (H.may_read host.old) (H.may_read host.new)) }
    ensures may_write { SameSlots (H.may_write host.old) (H.may_write host.new) }

    ensures told { H.tells host.old → H.tells host.new }
    ensures all { H.tells host.old → IfOk result (λ bytes. bytes.items ≡ (H.world host.old).left slot.number) }
    ensures taken { H.tells host.old → IfOk result (λ bytes. H.world host.new ≡ after_read (H.world host.old) slot.number (length bytes.items)) }
    ensures front { H.tells host.old → OnErr result (HasReadFront (H.world host.old) (H.world host.new) slot.number) }
    ensures too_large { H.tells host.old → IsErrOf result ReadErr.TooLarge → max < length ((H.world host.old).left slot.number) }

    // No read failed before the bytes or `TooLarge` were answered.
    ensures ok { OnOk result (H.faults host.new ≡ H.faults host.old) }
    ensures no_fault { IsErrOf result ReadErr.TooLarge → H.faults host.new ≡ H.faults host.old }
    ensures fault { IsErrOf result ReadErr.ReadFault → HasRisen (H.faults host.old) (H.faults host.new) }
    ensures later { H.faults host.old ≤ H.faults host.new }
{
    let mut kept = Kept::new(alloc);
    read_into(alloc, host, slot, max, &mut kept)?;
    Ok(kept.bytes)
}

fn zeros(alloc: Global, count: usize) -> Result<Vec<u8>, AllocError>
    ensures { IfOk result (λ buffer. length buffer.items ≡ count) }
{
    vec![in alloc; 0u8; count]
}
