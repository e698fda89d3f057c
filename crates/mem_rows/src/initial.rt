//! The accesses before the run: the doublewords that aren't 0.
ghost use Rattle.std.specs.Prelude.{◌≡◌, ◌+◌, ◌/◌, ◌≤◌, ◌<◌, ◌^◌, length, IfOk, OnOk};
ghost use Rattle.mem_rows.specs.Kept.{KeepsTo};
ghost use Rattle.mem_rows.specs.Initial.{IsPart, Writes};

use crate::{Access, Accesses};
use rv_model::{INPUT_START, Image, MEMORY_WORDS, Segment};
use std::alloc::{AllocError, Global};

// The first doubleword of the input window.
const INPUT: u32 = (INPUT_START / 8) as u32;

impl Accesses {
    // Writes a doubleword that isn't 0, unless that is done.
    fn write(&mut self, image: &Image, k: u32) -> Result<(), AllocError>
        requires below { k < MEMORY_WORDS }
        requires part { IsPart image.now self.old }
        ensures { OnOk result (Writes image.now self.old self.new k (k + 1)) }
    {
        let value = image.word(k);
        if value != 0 && self.has_none(k) {
            self.put(Access {
                time: 0,
                value,
                key: k,
                write: true,
            })?;
        }
        Ok(())
    }

    // The same for each doubleword from one up to another.
    fn write_range(&mut self, image: &Image, from: u32, to: u32) -> Result<(), AllocError>
        requires below { to ≤ MEMORY_WORDS }
        requires part { IsPart image.now self.old }
        ensures { OnOk result (Writes image.now self.old self.new from to) }
    {
        for k in from..to {
            self.write(image, k)?;
        }
        Ok(())
    }
}

fn end_of(segment: &Segment) -> u32
    ensures value { result ≡ (segment.now.start + length segment.now.bytes + 7) / 8 }
    ensures below { result ≤ MEMORY_WORDS }
{
    ((u64::from(segment.start) + segment.bytes.len() as u64 + 7) / 8) as u32
}

/// The accesses before the run of the image.
pub fn first_accesses(alloc: Global, image: &Image) -> Result<Accesses, AllocError>
    ensures { IfOk result (λ kept. KeepsTo image.now 0 kept) }
{
    let mut accesses = Accesses::empty(alloc);
    for segment in &image.segments {
        accesses.write_range(image, segment.start / 8, end_of(segment))?;
    }
    accesses.write_range(image, INPUT, INPUT + image.input.len() as u32 / 8 + 2)?;
    Ok(accesses)
}
