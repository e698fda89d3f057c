//! What may hold the threads.
use zk_layout::Air;

/// What the threads of a pool call on their way. A test may hold them there; the calls change nothing that a contract sees.
pub trait Gate {
    /// The chunk with this number is made, and its jobs aren't pushed yet.
    fn published(&self, chunk: u32);

    /// A worker is about to make this instance of the air. The caller never says so.
    fn enter(&self, air: Air, instance: u32);
}

/// It holds nobody.
pub struct NoGate;

impl Gate for NoGate {
    fn published(&self, _chunk: u32) {}

    fn enter(&self, _air: Air, _instance: u32) {}
}
