//! The instructions of an image, decoded once.
ghost use Rattle.std.specs.Prelude.{◌≡◌, ◌+◌, ◌*◌, ◌<◌, ◌^◌, IfOk, IfSome, Some, All};
ghost use Rattle.rv_model.specs.Image.{Img, fetch};
ghost use Rattle.rv_model.specs.Code.{instr_of, IsPart, AreInstructions};

use crate::{Image, Segment};
use rv_word::{Instr, decode};
use std::alloc::{AllocError, Global};

/// The instructions of the words that the file put into an executable segment, from its first multiple of 4 on.
#[derive(Debug, Drop)]
pub(crate) struct Part {
    start: u64,
    instrs: Vec<Option<Instr>>,
}

// The instruction at an address, if there is one.
#[cold]
fn fetch_and_decode(image: &Image, address: u64) -> Option<Instr>
    ensures { result ≡ instr_of (fetch image.now address) }
{
    match image.fetch(address) {
        Some(word) => decode(word),
        None => None,
    }
}

// So many words' instructions, from the address on.
fn instructions(
    alloc: Global,
    image: &Image,
    start: u64,
    count: usize,
) -> Result<Vec<Option<Instr>>, AllocError>
    requires { start + 4 * count < 2 ^ 64 }
    ensures { IfOk result (λ instrs. AreInstructions image.now start instrs.items) }
{
    let mut instrs = Vec::with_capacity(alloc, count)?;
    for k in 0..count {
        instrs.push(fetch_and_decode(image, start + 4 * k as u64))?;
    }
    Ok(instrs)
}

fn part_of(alloc: Global, image: &Image, segment: &Segment) -> Result<Part, AllocError>
    ensures { IfOk result (IsPart image.now) }
{
    let skip = (4 - segment.start % 4) % 4;
    let start = u64::from(segment.start) + u64::from(skip);
    let count = segment.bytes.len().saturating_sub(skip as usize) / 4;
    let instrs = instructions(alloc, image, start, count)?;
    Ok(Part { start, instrs })
}

// Adds the segment's part if it may be executed.
fn add_part(
    alloc: Global,
    parts: &mut Vec<Part>,
    image: &Image,
    segment: &Segment,
) -> Result<(), AllocError>
    ensures { All (IsPart image.now) parts.old.items → All (IsPart image.now) parts.new.items }
{
    if segment.exec {
        let part = part_of(alloc, image, segment)?;
        parts.push(part)?;
    }
    Ok(())
}

/// The instructions of the words that the file put into the image's executable segments.
pub(crate) fn parts_of(alloc: Global, image: &Image) -> Result<Vec<Part>, AllocError>
    ensures { IfOk result (λ parts. All (IsPart image.now) parts.items) }
{
    let mut parts = Vec::new(alloc);
    for segment in &image.segments {
        add_part(alloc, &mut parts, image, segment)?;
    }
    Ok(parts)
}

impl Part {
    #[inline(always)]
    fn instr(&self, pc: u64) -> Option<&Instr>
        ensures { IfSome result (λ i. (image : Img) → IsPart image self.now → instr_of (fetch image pc) ≡ Some i.now) }
    {
        if pc < self.start {
            return None;
        }
        let offset = pc - self.start;
        let at = (offset / 4) as usize;
        if offset % 4 != 0 || at >= self.instrs.len() {
            return None;
        }
        self.instrs[at].as_ref()
    }
}

impl Image {
    /// The instruction at a pc, where it was decoded: where there is none, the word may be an instruction still.
    /// Most programs have one executable segment, so the first part is tried before the others are searched.
    #[inline(always)]
    pub fn decoded(&self, pc: u64) -> Option<&Instr>
        ensures { IfSome result (λ i. instr_of (fetch self.now pc) ≡ Some i.now) }
    {
        if let Some(part) = self.parts.first() {
            let found = part.instr(pc);
            if found.is_some() {
                return found;
            }
        }
        self.decoded_behind(pc)
    }

    // The same, by a search of all parts.
    fn decoded_behind(&self, pc: u64) -> Option<&Instr>
        ensures { IfSome result (λ i. instr_of (fetch self.now pc) ≡ Some i.now) }
    {
        let count = self.parts.partition_point(|part| part.start <= pc);
        if count == 0 {
            None
        } else {
            self.parts[count - 1].instr(pc)
        }
    }

    /// The instruction of the executable word at pc, if there is such a word and it is an instruction.
    #[inline(always)]
    pub fn instruction(&self, pc: u64) -> Option<Instr>
        ensures { result ≡ instr_of (fetch self.now pc) }
    {
        match self.decoded(pc) {
            Some(instr) => Some(*instr),
            None => fetch_and_decode(self, pc),
        }
    }
}
