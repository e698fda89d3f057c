//! The rows that a chunk has of each air.
ghost use Rattle.std.specs.Prelude.{◌≡◌};
ghost use Rattle.planner.specs.Rows.{rows_in};

use zk_layout::Air;

/// The rows that a chunk has of each air that is cut into jobs.
#[derive(Clone, Copy, Debug, PartialEq, Eq)]
pub struct Counts {
    /// Main: the chunk's steps.
    pub steps: u32,
    /// The steps whose operation is a sum, difference, comparison or bitwise operation.
    pub binary: u32,
    /// The steps whose operation is a shift.
    pub shift: u32,
    /// The steps whose operation is a product, quotient or remainder.
    pub arith: u32,
    /// The loads and stores.
    pub align: u32,
}

impl Counts {
    /// The rows of the air; 0 for Mem and Out, which are cut otherwise.
    #[tactic(auto, unfolding(crate::specs::Rows::rows_in))]
    pub fn rows_in(&self, air: Air) -> u32
        ensures { result ≡ rows_in air self.now }
    {
        match air {
            Air::Main => self.steps,
            Air::Binary => self.binary,
            Air::Shift => self.shift,
            Air::Arith => self.arith,
            Air::Align => self.align,
            Air::Mem | Air::Out => 0,
        }
    }
}
