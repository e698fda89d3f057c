//! Many lists in one vector: each list is a chain of nodes that name the next node by its index, and an ordered map
//! leads from a list's key to its chain. Putting a value behind a list costs one look-up and one push, and walking a
//! list follows its indices.
#![tactic(auto)]

mod chain;
mod pool;
#[cfg(test)]
mod tests;
mod walk;

pub use pool::Pool;
pub use walk::Walk;
