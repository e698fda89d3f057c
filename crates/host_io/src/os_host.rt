//! The host over real files and standard output. It tells nothing of contents.
ghost use Rattle.std.specs.Prelude.{◌≡◌, ◌<◌, length, slice_get, is_some, IsTrue};
ghost use Rattle.host_io.specs.World.{nothing_told};
ghost use Rattle.host_io.specs.Slots.{at_slots};
ghost use Rattle.host_io.specs.OsSlots.{is_reading, is_writing, reading_given, writing_given};

use crate::{Host, HostErr, Slot};
use std::alloc::Global;
use std::fs::File;
use std::io::{self, Print, Read, Write};
use std::rt::Files;

/// A slot that was given: an open file, or one that was read to its end.
#[derive(Drop)]
pub enum OsSlot<F> {
    Reading(F),
    Ended,
    Writing(F),
}

/// Real files and standard output. Each error of the system is a fault, which it counts.
#[derive(Drop)]
pub struct OsHost<'a, R: Files + Print> {
    rt: &'a R,
    slots: Vec<OsSlot<R::File>>,
    faults: u64,
}

impl<'a, R: Files + Print> OsHost<'a, R> {
    /// A host that gave no slot and had no fault.
    pub fn new(alloc: Global, rt: &'a R) -> Self
        ensures faults { result.faults ≡ 0 }
        ensures given { length result.slots.items ≡ 0 }
    {
        OsHost {
            rt,
            slots: Vec::new(alloc),
            faults: 0,
        }
    }
}

impl<'a, R: Files + Print> Host for OsHost<'a, R> {
    ghost tells = { λ _. ⊥ };

    ghost world = { λ _. nothing_told };

    ghost given = { λ host n. IsTrue (at_slots is_some host.slots.items n) };

    ghost may_read = { λ host n. IsTrue (at_slots is_reading host.slots.items n) };

    ghost may_write = { λ host n. IsTrue (at_slots is_writing host.slots.items n) };

    ghost faults = { λ host. host.faults };

    ghost readable_given = { λ host n. reading_given (slice_get host.slots.items n) };

    ghost writable_given = { λ host n. writing_given (slice_get host.slots.items n) };

    fn open(&mut self, name: &str) -> Result<Slot, HostErr> {
        let number = self.slots.len() as u64;
        match File::open(self.rt, name) {
            Ok(file) => match self.slots.push(OsSlot::Reading(file)) {
                Ok(()) => Ok(Slot { number }),
                Err(_) => Err(HostErr::NoMemory),
            },
            Err(_) => {
                self.faults = self.faults.saturating_add(1);
                Err(HostErr::Failed)
            }
        }
    }

    fn read(&mut self, slot: Slot, into: &mut [u8]) -> Result<usize, HostErr> {
        let number = slot.number as usize;
        let OsSlot::Reading(file) = &mut self.slots[number] else {
            unreachable!();
        };
        match file.read(into) {
            Ok(0) => {
                self.slots[number] = OsSlot::Ended;
                Ok(0)
            }
            Ok(count) => Ok(count),
            Err(_) => {
                self.faults = self.faults.saturating_add(1);
                Err(HostErr::Failed)
            }
        }
    }

    fn create(&mut self, name: &str) -> Result<Slot, HostErr> {
        let number = self.slots.len() as u64;
        match File::create(self.rt, name) {
            Ok(file) => match self.slots.push(OsSlot::Writing(file)) {
                Ok(()) => Ok(Slot { number }),
                Err(_) => Err(HostErr::NoMemory),
            },
            Err(_) => {
                self.faults = self.faults.saturating_add(1);
                Err(HostErr::Failed)
            }
        }
    }

    fn write(&mut self, slot: Slot, piece: &[u8]) -> Result<usize, HostErr> {
        let number = slot.number as usize;
        let OsSlot::Writing(file) = &mut self.slots[number] else {
            unreachable!();
        };
        match file.write(piece) {
            Ok(0) | Err(_) => {
                self.faults = self.faults.saturating_add(1);
                Err(HostErr::Failed)
            }
            Ok(count) => Ok(count),
        }
    }

    fn report(&mut self, piece: &[u8]) -> Result<usize, HostErr> {
        match io::writer(self.rt).write(piece) {
            Ok(0) | Err(_) => {
                self.faults = self.faults.saturating_add(1);
                Err(HostErr::Failed)
            }
            Ok(count) => Ok(count),
        }
    }
}
