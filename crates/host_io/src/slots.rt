//! The slots of the host in memory.
ghost use Rattle.std.specs.Prelude.{◌≡◌, ◌≢◌, List, ◌<◌, ◌≤◌, ◌++◌, ◌∷◌, [], min, length, take, drop, slice_get, slice_set, OnOk, OnErr, IsTrue, string_bytes};
ghost use Rattle.std.specs.Option.{option_map};
ghost use Rattle.host_io.specs.World.{with_file};
ghost use Rattle.host_io.specs.Memory.{SlotState, Reading, Ended, Writing, contents_of, is_reading, is_writing, left_of, written_of, target_of, was_created};
ghost use Rattle.host_io.specs.States.{file_states, slot_state, slot_states};

use crate::files::place_of;
use std::alloc::AllocError;

/// What is left of a file that was opened: its bytes, past those that were taken.
#[derive(Drop)]
pub struct Source {
    pub bytes: Vec<u8>,
    pub at: usize,
}

/// What was written to a slot, and the name for which it was created.
#[derive(Drop)]
pub struct Target {
    pub name: String,
    pub written: Vec<u8>,
}

/// A slot that was given.
#[derive(Drop)]
pub enum MemSlot {
    Reading(Source),
    Ended,
    Writing(Target),
}

pub fn add_slot(slots: &mut Vec<MemSlot>, slot: MemSlot) -> Result<(), AllocError>
    ensures ok { OnOk result (slot_states slots.new.items ≡ slot_states slots.old.items ++ slot_state slot ∷ []) }
    ensures err { OnErr result (slots.new.items ≡ slots.old.items) }
{
    slots.push(slot)?;
    Ok(())
}

/// Takes back the slot that was added last.
pub fn drop_last(slots: &mut Vec<MemSlot>)
    ensures { (before : List SlotState) (slot : SlotState) → slot_states slots.old.items ≡ before ++ slot ∷ [] → slot_states slots.new.items ≡ before }
{
    let _ = slots.pop();
}

/// Moves what is left of the slot to the front of the buffer, at most this many bytes of it. Where
/// nothing is left the slot ends.
pub fn take_from(slots: &mut Vec<MemSlot>, number: usize, most: usize, into: &mut [u8]) -> usize
    requires reading { IsTrue (is_reading (slice_get (slot_states slots.old.items) number)) }
    requires room { most ≤ length into.old }
    ensures count { result ≡ min most (length (left_of (slice_get (slot_states slots.old.items) number))) }
    ensures front { into.new ≡ take result (left_of (slice_get (slot_states slots.old.items) number)) ++ drop result into.old }
    ensures ended { result ≡ 0 → slot_states slots.new.items ≡ slice_set (slot_states slots.old.items) number Ended }
    ensures moved { result ≢ 0 → slot_states slots.new.items ≡ slice_set (slot_states slots.old.items) number
        (Reading (drop result (left_of (slice_get (slot_states slots.old.items) number)))) }
{
    let MemSlot::Reading(source) = &mut slots[number] else {
        unreachable!();
    };
    let count = source.take(most, into);
    if count == 0 {
        slots[number] = MemSlot::Ended;
    }
    count
}

impl Source {
    fn take(&mut self, most: usize, into: &mut [u8]) -> usize
        requires { most ≤ length into.old }
        ensures count { result ≡ min most (length (drop self.old.at self.old.bytes.items)) }
        ensures front { into.new ≡ take result (drop self.old.at self.old.bytes.items) ++ drop result into.old }
        ensures rest { drop self.new.at self.new.bytes.items ≡ drop result (drop self.old.at self.old.bytes.items) }
    {
        if self.at >= self.bytes.len() {
            return 0;
        }
        let count = most.min(self.bytes.len() - self.at);
        into[..count].copy_from_slice(&self.bytes[self.at..self.at + count]);
        self.at += count;
        count
    }
}

/// Appends the piece to what was written to the slot, and to the file of its name.
pub fn append(
    slots: &mut Vec<MemSlot>,
    files: &mut Vec<(String, Vec<u8>)>,
    number: usize,
    piece: &[u8],
) -> Result<(), AllocError>
    requires writing { IsTrue (is_writing (slice_get (slot_states slots.old.items) number)) }
    ensures slot { OnOk result (slot_states slots.new.items ≡ slice_set (slot_states slots.old.items) number
        (Writing (target_of (slice_get (slot_states slots.old.items) number)) (written_of (slice_get (slot_states slots.old.items) number) ++ piece.now))) }
    ensures file { OnOk result (contents_of (file_states files.new.items)
        ≡ with_file (contents_of (file_states files.old.items)) (target_of (slice_get (slot_states slots.old.items) number)) (option_map (λ old. old ++ piece.now))) }
    ensures slot_stays { OnErr result (slot_states slots.new.items ≡ slot_states slots.old.items) }
    ensures file_stays { OnErr result (file_states files.new.items ≡ file_states files.old.items) }
{
    let MemSlot::Writing(target) = &mut slots[number] else {
        unreachable!();
    };
    match target.append(files, piece) {
        Ok(()) => Ok(()),
        Err(e) => Err(e),
    }
}

impl Target {
    // Appends the piece to what was written, and to the file of this name.
    fn append(&mut self, files: &mut Vec<(String, Vec<u8>)>, piece: &[u8]) -> Result<(), AllocError>
        ensures name { string_bytes self.new.name ≡ string_bytes self.old.name }
        ensures written { OnOk result (self.new.written.items ≡ self.old.written.items ++ piece.now) }
        ensures file { OnOk result (contents_of (file_states files.new.items)
            ≡ with_file (contents_of (file_states files.old.items)) (string_bytes self.old.name) (option_map (λ old. old ++ piece.now))) }
        ensures written_stays { OnErr result (self.new.written.items ≡ self.old.written.items) }
        ensures file_stays { OnErr result (file_states files.new.items ≡ file_states files.old.items) }
    {
        match place_of(files, self.name.as_str()) {
            Some(place) => {
                let file = &mut files[place];
                match append_both(&mut self.written, &mut file.1, piece) {
                    Ok(()) => Ok(()),
                    Err(e) => Err(e),
                }
            }
            None => match self.written.extend_from_slice(piece) {
                Ok(()) => Ok(()),
                Err(e) => Err(e),
            },
        }
    }
}

// Appends the piece to both, or to neither.
fn append_both(first: &mut Vec<u8>, second: &mut Vec<u8>, piece: &[u8]) -> Result<(), AllocError>
    ensures first { OnOk result (first.new.items ≡ first.old.items ++ piece.now) }
    ensures second { OnOk result (second.new.items ≡ second.old.items ++ piece.now) }
    ensures first_stays { OnErr result (first.new.items ≡ first.old.items) }
    ensures second_stays { OnErr result (second.new.items ≡ second.old.items) }
{
    let before = first.len();
    first.extend_from_slice(piece)?;
    match second.extend_from_slice(piece) {
        Ok(()) => Ok(()),
        Err(e) => {
            first.truncate(before);
            Err(e)
        }
    }
}

/// Whether some slot was created for this name.
pub fn is_created(slots: &[MemSlot], name: &str) -> bool
    ensures { result ≡ was_created (slot_states slots.now) name.now }
{
    for slot in slots {
        if let MemSlot::Writing(target) = slot {
            if name == target.name.as_str() {
                return true;
            }
        }
    }
    false
}
