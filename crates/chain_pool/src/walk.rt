//! A list, value by value.
ghost use Rattle.std.specs.Iterator.{YieldsFirst, item_count};
ghost use Rattle.std.specs.Prelude.{◌≡◌};
ghost use Rattle.chain_pool.specs.Chain.{values, AreThere};

use crate::chain::Node;
use std::marker::Model;

/// The values of a list that are left, in the order in which they were put there.
#[derive(Drop)]
pub struct Walk<'a, T: Copy> {
    nodes: &'a [Node<T>],
    at: usize,
    left: usize,
}

impl<'a, T: Copy> Model for Walk<'a, T> {
    ghost use Rattle.std.specs.Prelude.{List};
    ghost use Rattle.std.specs.Coded.{coded_list};
    ghost use Rattle.chain_pool.specs.Chain.{values, AreThere};

    ghost Value = { List T };

    ghost coded = { coded_list T.code };

    ghost view = { λ w. values w.nodes.now w.at w.left };

    ghost invariant = { λ w. AreThere w.nodes.now w.at w.left };
}

impl<'a, T: Copy> Walk<'a, T> {
    /// The values of `left` nodes from the one at `at` on.
    pub(crate) fn new(nodes: &'a [Node<T>], at: usize, left: usize) -> Self
        requires { AreThere nodes.now at left }
        ensures { result ≡ values nodes.now at left }
    {
        Walk { nodes, at, left }
    }
}

impl<'a, T: Copy> Iterator for Walk<'a, T> {
    type Item = T;

    ghost next_gives = { YieldsFirst (λ w. w) };

    ghost remaining = { item_count (λ w. w) };

    fn next(&mut self) -> Option<T> {
        if self.left == 0 {
            return None;
        }
        let node = self.nodes[self.at];
        self.at = node.next;
        self.left -= 1;
        Some(node.value)
    }
}
