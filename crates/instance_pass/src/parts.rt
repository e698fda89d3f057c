//! The tuples that a side of an `is` has of one of its lists.
ghost use Rattle.std.specs.Prelude.{◌≡◌, ◌<◌, ◌≤◌, ◌++◌, length, flat_map, OnOk};
ghost use Rattle.std.specs.List.{range_with_len};
ghost use Rattle.pil_program.specs.Blocks.{at_lane};
ghost use Rattle.instance_pass.specs.Senders.{IsSenderIn, sent_by};
ghost use Rattle.instance_pass.specs.Parts.{IsPartIn, Takes};

use crate::senders::Sender;
use bus_check::TupleList;
use pil_program::Block;
use std::alloc::{AllocError, Global};

/// A list of an `is`, and the tuples that the rows seen so far sent.
#[derive(Drop)]
pub struct Part {
    pub sender: Sender,
    pub tuples: TupleList,
}

/// Puts what the first rows of a block send at the end.
pub fn push_rows(
    alloc: Global,
    sender: &Sender,
    blocks: &[Block],
    count: usize,
    tuples: &mut TupleList,
) -> Result<(), AllocError>
    requires inside { IsSenderIn (length blocks.now) sender.now }
    requires count { count ≤ 64 }
    ensures { OnOk result (tuples.new ≡ tuples.old ++ flat_map (λ j. sent_by (at_lane blocks.now j) sender.now) (range_with_len 0 count)) }
{
    let mut tuple = Vec::with_capacity(alloc, sender.terms.len())?;
    for lane in 0..count {
        if sender.selects(blocks, lane) {
            sender.tuple(blocks, lane, &mut tuple)?;
            tuples.push(alloc, tuple.as_slice())?;
        }
    }
    Ok(())
}

impl Part {
    /// Takes what the first rows of a block of a namespace send.
    pub fn take(
        &mut self,
        alloc: Global,
        space: u32,
        blocks: &[Block],
        count: usize,
    ) -> Result<(), AllocError>
        requires inside { IsPartIn space (length blocks.now) self.old }
        requires count { count ≤ 64 }
        ensures { OnOk result (Takes space (flat_map (λ j. sent_by (at_lane blocks.now j) self.old.sender) (range_with_len 0 count)) self.old self.new) }
    {
        if self.sender.space == space {
            push_rows(alloc, &self.sender, blocks, count, &mut self.tuples)?;
        }
        Ok(())
    }
}
