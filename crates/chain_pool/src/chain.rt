//! Nodes, and chains of them.
ghost use Rattle.std.specs.Prelude.{◌≡◌, ◌==◌, ◌+◌, ◌<◌, ℕ, length, Some, OnOk, OnErr, if◌then◌else◌};
ghost use Rattle.chain_pool.specs.Chain.{next_at, value_at};

use std::alloc::AllocError;

/// A value of some list.
#[derive(Clone, Copy, Debug)]
pub struct Node<T: Copy> {
    pub value: T,
    /// The index of the list's next node. In the last node of a list it says nothing.
    pub next: usize,
}

/// The nodes of one list, by index.
#[derive(Clone, Copy, Debug)]
pub struct Chain {
    pub first: usize,
    pub last: usize,
    /// How many they are, at least 1.
    pub count: usize,
}

/// Puts a node behind all others, and makes it the next of the node `last`. An `Err` changes nothing.
pub fn link<T: Copy>(nodes: &mut Vec<Node<T>>, last: usize, value: T) -> Result<(), AllocError>
    requires { last < length nodes.old.items }
    ensures long { OnOk result (length nodes.new.items ≡ length nodes.old.items + 1) }
    ensures next { OnOk result ((i : ℕ) → i < length nodes.old.items → next_at nodes.new.items i ≡ (if i == last then length nodes.old.items else next_at nodes.old.items i)) }
    ensures value { OnOk result ((i : ℕ) → i < length nodes.old.items → value_at nodes.new.items i ≡ value_at nodes.old.items i) }
    ensures added { OnOk result (value_at nodes.new.items (length nodes.old.items) ≡ Some value) }
    ensures err { OnErr result (nodes.new.items ≡ nodes.old.items) }
{
    let at = nodes.len();
    nodes.push(Node { value, next: at })?;
    nodes[last].next = at;
    Ok(())
}
