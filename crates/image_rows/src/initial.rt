//! The doublewords of memory that aren't 0 when a run starts.
ghost use Rattle.std.specs.Prelude.{◌≡◌, ◌≤◌, max, length, IfOk, OnOk};
ghost use Rattle.step_rows.specs.Initial.{initial_doublewords};
ghost use Rattle.image_rows.specs.Found.{HasAllDoublewords, IsZeroBetween, end_doubleword, end_of_input};

use rv_model::{INPUT_START, Image, MEMORY_WORDS, Segment};
use std::alloc::{AllocError, Global};
use step_rows::Doubleword;

// The number of the input window's first doubleword.
const INPUT_INDEX: u32 = (INPUT_START / 8) as u32;

// The doublewords that aren't 0 below a number.
#[derive(Drop)]
struct Found {
    doublewords: Vec<Doubleword>,
    below: u32,
}

impl Found {
    // Adds those up to a number.
    fn add_to(&mut self, image: &Image, to: u32) -> Result<(), AllocError>
        requires most { to ≤ MEMORY_WORDS }
        requires found { HasAllDoublewords image.now self.old.doublewords.items self.old.below }
        ensures { OnOk result ((HasAllDoublewords image.now self.new.doublewords.items self.new.below) × (self.new.below ≡ max self.old.below to)) }
    {
        for number in self.below..to {
            let value = image.word(number);
            if value != 0 {
                self.doublewords.push(Doubleword { number, value })?;
            }
        }
        self.below = self.below.max(to);
        Ok(())
    }

    // Adds those from a number up to another, where those before are 0 or found.
    fn add_span(&mut self, image: &Image, from: u32, to: u32) -> Result<(), AllocError>
        requires most { to ≤ MEMORY_WORDS }
        requires zero { IsZeroBetween image.now self.old.below from }
        requires found { HasAllDoublewords image.now self.old.doublewords.items self.old.below }
        ensures { OnOk result ((HasAllDoublewords image.now self.new.doublewords.items self.new.below) × (self.new.below ≡ max (max self.old.below from) to)) }
    {
        self.below = self.below.max(from);
        self.add_to(image, to)
    }

    // Adds those of the input window. The second time there are none left.
    fn add_input(&mut self, image: &Image) -> Result<(), AllocError>
        requires zero { IsZeroBetween image.now self.old.below INPUT_INDEX }
        requires found { HasAllDoublewords image.now self.old.doublewords.items self.old.below }
        ensures { OnOk result ((HasAllDoublewords image.now self.new.doublewords.items self.new.below) × (self.new.below ≡ max self.old.below (end_of_input image.now))) }
    {
        let end = INPUT_INDEX + ((image.input.len() + 15) / 8) as u32;
        self.add_span(image, INPUT_INDEX, end)
    }
}

// The number after the last doubleword that has bytes of the segment's file part.
fn end_doubleword(segment: &Segment) -> u32
    ensures value { result ≡ end_doubleword segment.now }
    ensures most { result ≤ MEMORY_WORDS }
{
    ((u64::from(segment.start) + segment.bytes.len() as u64 + 7) / 8) as u32
}

/// The doublewords of memory that aren't 0 when a run of the image starts, in order of their numbers.
///
/// # Errors
///
/// Memory ran out.
pub fn initial_doublewords(alloc: Global, image: &Image) -> Result<Vec<Doubleword>, AllocError>
    ensures value { IfOk result (λ v. v.items ≡ initial_doublewords image.now) }
    ensures few { IfOk result (λ v. length v.items ≤ MEMORY_WORDS) }
{
    let mut found = Found {
        doublewords: Vec::new(alloc),
        below: 0,
    };
    for segment in &image.segments {
        if u64::from(segment.start) >= INPUT_START {
            found.add_input(image)?;
        }
        found.add_span(image, segment.start / 8, end_doubleword(segment))?;
    }
    found.add_input(image)?;
    Ok(found.doublewords)
}
