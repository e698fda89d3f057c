//! The lists of all keys.
ghost use Rattle.std.specs.Prelude.{◌≡◌, ◌≢◌, ◌↔◌, ℕ, [], Contains, IfOk, OnOk, OnErr};
ghost use Rattle.std.specs.List.Sorted.{IsStrictlyIncreasing};
ghost use Rattle.std.specs.Ordering.{nat_cmp};
ghost use Rattle.std.specs.BTreeMap.{keys, IsOrdered};
ghost use Rattle.chain_pool.specs.Lists.{list_of, Appends, Clears};

use crate::Walk;
use crate::chain::{Chain, Node, link};
use std::alloc::{AllocError, Global};
use std::collections::BTreeMap;
use std::marker::Model;

/// A map from keys to lists. Contracts see it as pairs of a key and its list, and read a key's list by `list_of`.
#[derive(Drop)]
pub struct Pool<T: Copy> {
    alloc: Global,
    nodes: Vec<Node<T>>,
    chains: BTreeMap<u64, Chain>,
}

impl<T: Copy> Model for Pool<T> {
    ghost use Rattle.std.specs.Prelude.{List, ℕ};
    ghost use Rattle.std.specs.Coded.{coded_list, coded×, coded_ℕ};
    ghost use Rattle.std.specs.Ordering.{nat_cmp};
    ghost use Rattle.std.specs.BTreeMap.{get};
    ghost use Rattle.chain_pool.specs.Chain.{lists, AreChains};

    ghost Value = { List (ℕ × List T) };

    ghost coded = { coded_list (coded× coded_ℕ (coded_list T.code)) };

    ghost view = { λ p. lists p.nodes.items p.chains.entries };

    ghost invariant = { λ p. AreChains p.nodes.items (get nat_cmp p.chains) };
}

fn keys_of(alloc: Global, chains: &BTreeMap<u64, Chain>) -> Result<Vec<u64>, AllocError>
    ensures all { IfOk result (λ found. found.items ≡ keys chains.now) }
    ensures ordered { IsOrdered nat_cmp chains.now }
{
    chains.keys().copied().collect(alloc)
}

impl<T: Copy> Pool<T> {
    /// All lists are empty. It takes no memory.
    pub fn new(alloc: Global) -> Pool<T>
        ensures { result ≡ [] }
    {
        Pool {
            alloc,
            nodes: Vec::new(alloc),
            chains: BTreeMap::new(alloc),
        }
    }

    /// Puts a value behind the key's list. Where memory is wanting, all lists are as before.
    pub fn append(&mut self, key: u64, value: T) -> Result<(), AllocError>
        ensures ok { OnOk result (Appends self.old self.new key value) }
        ensures err { OnErr result (self.new ≡ self.old) }
    {
        let at = self.nodes.len();
        if let Some(chain) = self.chains.get_mut(&key) {
            link(&mut self.nodes, chain.last, value)?;
            chain.last = at;
            chain.count += 1;
            return Ok(());
        }
        self.nodes.push(Node { value, next: at })?;
        let chain = Chain {
            first: at,
            last: at,
            count: 1,
        };
        match self.chains.insert(key, chain) {
            Ok(_) => Ok(()),
            Err(_) => {
                self.nodes.pop();
                Err(AllocError)
            }
        }
    }

    /// The key's list, value by value, in the order in which they were put there.
    pub fn walk(&self, key: u64) -> Walk<'_, T>
        ensures { result ≡ list_of self.now key }
    {
        match self.chains.get(&key) {
            Some(chain) => Walk::new(&self.nodes, chain.first, chain.count),
            None => Walk::new(&self.nodes, 0, 0),
        }
    }

    /// The keys whose lists aren't empty, ascending.
    pub fn keys(&self) -> Result<Vec<u64>, AllocError>
        ensures ascending { IfOk result (λ found. IsStrictlyIncreasing found.items) }
        ensures exact { IfOk result (λ found. (key : ℕ) → Contains found.items key ↔ (list_of self.now key ≢ [])) }
    {
        let found = keys_of(self.alloc, &self.chains)?;
        Ok(found)
    }

    /// Empties the key's list; all others stay. The memory of its nodes is kept until the pool is dropped.
    pub fn clear(&mut self, key: u64)
        ensures { Clears self.old self.new key }
    {
        self.chains.remove(&key);
    }
}
