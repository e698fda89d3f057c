//! What is made of a run.
use gold::Witness;
use rv_model::Public;

/// The tables of a run that halted, its number of steps, the halting one with them, and what it published.
#[derive(Debug, Drop)]
pub struct Made {
    pub witness: Witness,
    pub steps: u32,
    pub public: Public,
}
