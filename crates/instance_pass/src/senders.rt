//! What a row sends.
ghost use Rattle.std.specs.Prelude.{◌≡◌, ◌<◌, ◌==◌, not, map, length, OnOk};
ghost use Rattle.pil_program.specs.Blocks.{at_lane};
ghost use Rattle.instance_pass.specs.Senders.{IsSenderIn};

use pil_program::Block;
use sqlite_items::Items;
use std::alloc::AllocError;

/// The tuples of the selected rows of a namespace, as steps of its program.
#[derive(Drop)]
pub struct Sender {
    pub space: u32,
    /// A row is selected where this step's value isn't 0.
    pub sel: usize,
    pub terms: Items<usize>,
}

/// The value of a step at a row of a block.
#[inline]
pub fn value_at(blocks: &[Block], step: usize, lane: usize) -> u64
    requires step { step < length blocks.now }
    requires lane { lane < 64 }
    ensures { result ≡ at_lane blocks.now lane step }
{
    let block = &blocks[step];
    block.values[lane].value()
}

impl Sender {
    /// Whether a row of a block is selected.
    #[inline]
    pub fn selects(&self, blocks: &[Block], lane: usize) -> bool
        requires inside { IsSenderIn (length blocks.now) self.now }
        requires lane { lane < 64 }
        ensures { result ≡ not (at_lane blocks.now lane self.now.sel == 0) }
    {
        value_at(blocks, self.sel, lane) != 0
    }

    /// Puts the tuple of a row of a block in place of what a vector holds.
    pub fn tuple(
        &self,
        blocks: &[Block],
        lane: usize,
        tuple: &mut Vec<u64>,
    ) -> Result<(), AllocError>
        requires inside { IsSenderIn (length blocks.now) self.now }
        requires lane { lane < 64 }
        ensures { OnOk result (tuple.new.items ≡ map (at_lane blocks.now lane) self.now.terms) }
    {
        tuple.clear();
        for step in self.terms.as_slice() {
            tuple.push(value_at(blocks, *step, lane))?;
        }
        Ok(())
    }
}
