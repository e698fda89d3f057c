//! The host.
ghost use Rattle.std.specs.Prelude.{◌≡◌};

use crate::meter::Meter;
use host_io::{Host, HostErr, Slot};
use std::io::Print;

/// Passes every call on to the inner host and has its contract. On the screen, which is meant to be a
/// terminal, it shows how many megabytes were read and written; a screen that can't be written changes nothing.
#[derive(Drop)]
pub struct ProgressHost<H: Host, S: Print> {
    host: H,
    meter: Meter<S>,
}

impl<H: Host, S: Print> ProgressHost<H, S> {
    /// Stands round this host. Nothing is shown yet.
    pub fn new(host: H, screen: S) -> Self
        ensures { result.host ≡ host }
    {
        ProgressHost {
            host,
            meter: Meter::new(screen),
        }
    }

    /// The inner host.
    pub fn inner(&self) -> &H
        ensures { result.now ≡ self.now.host }
    {
        &self.host
    }

    /// Takes away what is shown.
    pub fn end(&mut self)
        ensures { self.new.host ≡ self.old.host }
    {
        self.meter.clear();
    }
}

impl<H: Host, S: Print> Host for ProgressHost<H, S> {
    ghost tells = { λ outer. H.tells outer.host };

    ghost world = { λ outer. H.world outer.host };

    ghost given = { λ outer. H.given outer.host };

    ghost may_read = { λ outer. H.may_read outer.host };

    ghost may_write = { λ outer. H.may_write outer.host };

    ghost faults = { λ outer. H.faults outer.host };

    ghost readable_given = { λ outer n. H.readable_given outer.host n };

    ghost writable_given = { λ outer n. H.writable_given outer.host n };

    fn open(&mut self, name: &str) -> Result<Slot, HostErr> {
        self.host.open(name)
    }

    fn read(&mut self, slot: Slot, into: &mut [u8]) -> Result<usize, HostErr> {
        let answer = self.host.read(slot, into);
        if let Ok(count) = answer {
            self.meter.add_read(count);
        }
        answer
    }

    fn create(&mut self, name: &str) -> Result<Slot, HostErr> {
        self.host.create(name)
    }

    fn write(&mut self, slot: Slot, piece: &[u8]) -> Result<usize, HostErr> {
        let answer = self.host.write(slot, piece);
        if let Ok(count) = answer {
            self.meter.add_written(count);
        }
        answer
    }

    fn report(&mut self, piece: &[u8]) -> Result<usize, HostErr> {
        self.meter.clear();
        self.host.report(piece)
    }
}
