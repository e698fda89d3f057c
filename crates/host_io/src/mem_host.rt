//! The host in memory.
ghost use Rattle.std.specs.Prelude.{◌≤◌};

use crate::call::{CallCounts, HostCall, begin_call};
use crate::files::{AskedName, ask, bytes_of, copy_of, empty_file};
use crate::slots::{MemSlot, Source, Target, add_slot, append, drop_last, is_created, take_from};
use crate::{Host, HostErr, Slot};
use std::alloc::Global;

/// Files, slots and the report in memory. It tells everything, gives or takes at most `grain` bytes
/// in a call, and fails the calls of its list.
#[derive(Drop)]
pub struct MemHost {
    alloc: Global,
    files: Vec<(String, Vec<u8>)>,
    slots: Vec<MemSlot>,
    grain: usize,
    failing: Vec<(HostCall, u64)>,
    counts: CallCounts,
    asked: Vec<AskedName>,
    reported: Vec<u8>,
    faults: u64,
    ghost positive: { 1 ≤ grain },
}

impl MemHost {
    ghost use Rattle.std.specs.Prelude.{◌≡◌, ◌≤◌, [], false, true, MatchOption, unwrap_or};
    ghost use Rattle.host_io.specs.Memory.{contents_of, was_created};
    ghost use Rattle.host_io.specs.MemStates.{state_of, first_state};

    /// A host with these files. Of several with one name the first counts. The n-th call of a kind
    /// fails, counted from 0, where the list has that pair.
    pub fn new(
        alloc: Global,
        files: Vec<(String, Vec<u8>)>,
        grain: usize,
        failing: Vec<(HostCall, u64)>,
    ) -> MemHost
        requires { 1 ≤ grain }
        ensures { state_of result ≡ first_state files.items grain failing.items }
    {
        MemHost {
            alloc,
            files,
            slots: Vec::new(alloc),
            grain,
            failing,
            counts: CallCounts {
                open_calls: 0,
                read_calls: 0,
                create_calls: 0,
                write_calls: 0,
                report_calls: 0,
            },
            asked: Vec::new(alloc),
            reported: Vec::new(alloc),
            faults: 0,
        }
    }

    /// The contents behind a name that was created.
    pub fn written(&self, name: &str) -> Option<&[u8]>
        ensures { MatchOption result (was_created (state_of self.now).slots name.now ≡ false) (λ bytes. (was_created (state_of self.now).slots name.now ≡ true) × (bytes.now ≡ unwrap_or (contents_of (state_of self.now).files name.now) [])) }
    {
        if !is_created(&self.slots, name) {
            return None;
        }
        match bytes_of(&self.files, name) {
            Some(bytes) => Some(bytes),
            None => Some(&[]),
        }
    }

    /// The bytes reported.
    pub fn reported(&self) -> &[u8]
        ensures { result.now ≡ (state_of self.now).reported }
    {
        self.reported.as_slice()
    }
}

impl Host for MemHost {
    ghost use Rattle.std.specs.Prelude.{◌≡◌, ◌<◌, ◌≤◌, ◌⊎◌, None, min, length, take, slice_get, IsErr, IfOk, MatchResult, OnErr, IsErrOf};
    ghost use Rattle.host_io.specs.Slots.{SameSlots, GainsAnswer, EndsAtZero};
    ghost use Rattle.host_io.specs.World.{Opened, Created, after_asking, after_create, after_write, after_report};
    ghost use Rattle.host_io.specs.Calls.{HasCause, Opens, Reads};
    ghost use Rattle.host_io.specs.Memory.{IsGiven, MayRead, MayWrite, contents_of, world_of, CountsCall, IsListed, reading_given, writing_given};
    ghost use Rattle.host_io.specs.MemStates.{state_of};

    ghost tells = { λ _. Unit {0} };

    ghost world = { λ host. world_of (state_of host) };

    ghost given = { λ host. IsGiven (state_of host) };

    ghost may_read = { λ host. MayRead (state_of host) };

    ghost may_write = { λ host. MayWrite (state_of host) };

    ghost faults = { λ host. (state_of host).faults };

    ghost readable_given = { λ host n. reading_given (slice_get (state_of host).slots n) };

    ghost writable_given = { λ host n. writing_given (slice_get (state_of host).slots n) };

    fn open(&mut self, name: &str) -> Result<Slot, HostErr>
        ensures fresh { IfOk result (λ slot. ¬ IsGiven (state_of self.old) slot.number) }
        ensures given { GainsAnswer (IsGiven (state_of self.old)) (IsGiven (state_of self.new)) result }
        ensures may_read { GainsAnswer (MayRead (state_of self.old)) (MayRead (state_of self.new)) result }
        ensures may_write { SameSlots (MayWrite (state_of self.old)) (MayWrite (state_of self.new)) }
        ensures cause { HasCause (state_of self.old).faults (state_of self.new).faults result }

        ensures ok { IfOk result (λ slot. Opens (world_of (state_of self.old)) (world_of (state_of self.new)) name.now slot.number) }
        ensures failed { IsErrOf result HostErr.Failed → world_of (state_of self.new) ≡ after_asking (world_of (state_of self.old)) (Opened name.now) }
        ensures no_memory { IsErrOf result HostErr.NoMemory → world_of (state_of self.new) ≡ world_of (state_of self.old) }

        ensures counted { CountsCall (state_of self.old) (state_of self.new) HostCall.Open }
        ensures listed { IsListed (state_of self.old) HostCall.Open → IsErr result }
        ensures only { IsErrOf result HostErr.Failed → IsListed (state_of self.old) HostCall.Open ⊎ (contents_of (state_of self.old).files name.now ≡ None) }
    {
        let fails = begin_call(&self.failing, &mut self.counts, HostCall::Open);
        let Ok(found) = copy_of(self.alloc, &self.files, name) else {
            return Err(HostErr::NoMemory);
        };
        let Ok(copy) = String::from_str(self.alloc, name) else {
            return Err(HostErr::NoMemory);
        };
        let Ok(()) = ask(&mut self.asked, AskedName::Opened(copy)) else {
            return Err(HostErr::NoMemory);
        };
        if fails {
            self.faults = self.faults.saturating_add(1);
            return Err(HostErr::Failed);
        }
        let Some(bytes) = found else {
            self.faults = self.faults.saturating_add(1);
            return Err(HostErr::Failed);
        };
        let number = self.slots.len() as u64;
        let slot = MemSlot::Reading(Source { bytes, at: 0 });
        let Ok(()) = add_slot(&mut self.slots, slot) else {
            let _ = self.asked.pop();
            return Err(HostErr::NoMemory);
        };
        Ok(Slot { number })
    }

    fn read(&mut self, slot: Slot, into: &mut [u8]) -> Result<usize, HostErr>
        requires may { MayRead (state_of self.old) slot.number }
        requires room { 0 < length into.old }
        ensures within { IfOk result (λ count. count ≤ length into.old) }
        ensures given { SameSlots (IsGiven (state_of self.old)) (IsGiven (state_of self.new)) }
        ensures may_read { MatchResult result (λ count. EndsAtZero (MayRead (state_of self.old)) (MayRead (state_of self.new)) slot.number count)
            (λ e. SameSlots (MayRead (state_of self.old)) (MayRead (state_of self.new))) }
        ensures may_write { SameSlots (MayWrite (state_of self.old)) (MayWrite (state_of self.new)) }
        ensures has_memory { IsErrOf result HostErr.NoMemory → ⊥ }
        ensures cause { HasCause (state_of self.old).faults (state_of self.new).faults result }

        ensures ok { IfOk result (λ count. Reads (world_of (state_of self.old)) (world_of (state_of self.new)) slot.number count into.old into.new) }
        ensures refused { OnErr result (world_of (state_of self.new) ≡ world_of (state_of self.old)) }
        ensures buffer { OnErr result (into.new ≡ into.old) }

        ensures counted { CountsCall (state_of self.old) (state_of self.new) HostCall.Read }
        ensures listed { IsListed (state_of self.old) HostCall.Read → IsErr result }
        ensures only { IsErr result → IsListed (state_of self.old) HostCall.Read }
        ensures grain { IfOk result (λ count. count ≡ min (min (state_of self.old).grain (length into.old)) (length ((world_of (state_of self.old)).left slot.number))) }
    {
        if begin_call(&self.failing, &mut self.counts, HostCall::Read) {
            self.faults = self.faults.saturating_add(1);
            return Err(HostErr::Failed);
        }
        let most = self.grain.min(into.len());
        Ok(take_from(&mut self.slots, slot.number as usize, most, into))
    }

    fn create(&mut self, name: &str) -> Result<Slot, HostErr>
        ensures fresh { IfOk result (λ slot. ¬ IsGiven (state_of self.old) slot.number) }
        ensures given { GainsAnswer (IsGiven (state_of self.old)) (IsGiven (state_of self.new)) result }
        ensures may_read { SameSlots (MayRead (state_of self.old)) (MayRead (state_of self.new)) }
        ensures may_write { GainsAnswer (MayWrite (state_of self.old)) (MayWrite (state_of self.new)) result }
        ensures cause { HasCause (state_of self.old).faults (state_of self.new).faults result }

        ensures ok { IfOk result (λ slot. world_of (state_of self.new) ≡ after_create (world_of (state_of self.old)) name.now slot.number) }
        ensures failed { IsErrOf result HostErr.Failed → world_of (state_of self.new) ≡ after_asking (world_of (state_of self.old)) (Created name.now) }
        ensures no_memory { IsErrOf result HostErr.NoMemory → world_of (state_of self.new) ≡ world_of (state_of self.old) }

        ensures counted { CountsCall (state_of self.old) (state_of self.new) HostCall.Create }
        ensures listed { IsListed (state_of self.old) HostCall.Create → IsErr result }
        ensures only { IsErrOf result HostErr.Failed → IsListed (state_of self.old) HostCall.Create }
    {
        let fails = begin_call(&self.failing, &mut self.counts, HostCall::Create);
        let Ok(copy) = String::from_str(self.alloc, name) else {
            return Err(HostErr::NoMemory);
        };
        let Ok(target) = String::from_str(self.alloc, name) else {
            return Err(HostErr::NoMemory);
        };
        let Ok(()) = ask(&mut self.asked, AskedName::Created(copy)) else {
            return Err(HostErr::NoMemory);
        };
        if fails {
            self.faults = self.faults.saturating_add(1);
            return Err(HostErr::Failed);
        }
        let number = self.slots.len() as u64;
        let written = Vec::new(self.alloc);
        let slot = MemSlot::Writing(Target {
            name: target,
            written,
        });
        let Ok(()) = add_slot(&mut self.slots, slot) else {
            let _ = self.asked.pop();
            return Err(HostErr::NoMemory);
        };
        let Ok(()) = empty_file(self.alloc, &mut self.files, name) else {
            drop_last(&mut self.slots);
            let _ = self.asked.pop();
            return Err(HostErr::NoMemory);
        };
        Ok(Slot { number })
    }

    fn write(&mut self, slot: Slot, piece: &[u8]) -> Result<usize, HostErr>
        requires may { MayWrite (state_of self.old) slot.number }
        requires some { 0 < length piece.now }
        ensures some { IfOk result (λ count. 0 < count) }
        ensures within { IfOk result (λ count. count ≤ length piece.now) }
        ensures given { SameSlots (IsGiven (state_of self.old)) (IsGiven (state_of self.new)) }
        ensures may_read { SameSlots (MayRead (state_of self.old)) (MayRead (state_of self.new)) }
        ensures may_write { SameSlots (MayWrite (state_of self.old)) (MayWrite (state_of self.new)) }
        ensures cause { HasCause (state_of self.old).faults (state_of self.new).faults result }

        ensures ok { IfOk result (λ count. world_of (state_of self.new) ≡ after_write (world_of (state_of self.old)) slot.number (take count piece.now)) }
        ensures refused { OnErr result (world_of (state_of self.new) ≡ world_of (state_of self.old)) }

        ensures counted { CountsCall (state_of self.old) (state_of self.new) HostCall.Write }
        ensures listed { IsListed (state_of self.old) HostCall.Write → IsErr result }
        ensures only { IsErrOf result HostErr.Failed → IsListed (state_of self.old) HostCall.Write }
        ensures grain { IfOk result (λ count. count ≡ min (state_of self.old).grain (length piece.now)) }
    {
        if begin_call(&self.failing, &mut self.counts, HostCall::Write) {
            self.faults = self.faults.saturating_add(1);
            return Err(HostErr::Failed);
        }
        let count = self.grain.min(piece.len());
        let number = slot.number as usize;
        match append(&mut self.slots, &mut self.files, number, &piece[..count]) {
            Ok(()) => Ok(count),
            Err(_) => Err(HostErr::NoMemory),
        }
    }

    fn report(&mut self, piece: &[u8]) -> Result<usize, HostErr>
        requires { 0 < length piece.now }
        ensures some { IfOk result (λ count. 0 < count) }
        ensures within { IfOk result (λ count. count ≤ length piece.now) }
        ensures given { SameSlots (IsGiven (state_of self.old)) (IsGiven (state_of self.new)) }
        ensures may_read { SameSlots (MayRead (state_of self.old)) (MayRead (state_of self.new)) }
        ensures may_write { SameSlots (MayWrite (state_of self.old)) (MayWrite (state_of self.new)) }
        ensures cause { HasCause (state_of self.old).faults (state_of self.new).faults result }

        ensures ok { IfOk result (λ count. world_of (state_of self.new) ≡ after_report (world_of (state_of self.old)) (take count piece.now)) }
        ensures refused { OnErr result (world_of (state_of self.new) ≡ world_of (state_of self.old)) }

        ensures counted { CountsCall (state_of self.old) (state_of self.new) HostCall.Report }
        ensures listed { IsListed (state_of self.old) HostCall.Report → IsErr result }
        ensures only { IsErrOf result HostErr.Failed → IsListed (state_of self.old) HostCall.Report }
        ensures grain { IfOk result (λ count. count ≡ min (state_of self.old).grain (length piece.now)) }
    {
        if begin_call(&self.failing, &mut self.counts, HostCall::Report) {
            self.faults = self.faults.saturating_add(1);
            return Err(HostErr::Failed);
        }
        let count = self.grain.min(piece.len());
        match self.reported.extend_from_slice(&piece[..count]) {
            Ok(()) => Ok(count),
            Err(_) => Err(HostErr::NoMemory),
        }
    }
}
