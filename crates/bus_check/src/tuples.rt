//! Lists of tuples.
ghost use Rattle.std.specs.Prelude.{◌≡◌, ◌≢◌, ◌<◌, ◌≤◌, ◌↔◌, ◌++◌, ◌∷◌, List, ℕ, [], IsTrue, OnOk, MatchOption, length, slice_index_or};
ghost use Rattle.pil_ast.specs.Holds.{times};
ghost use Rattle.bus_check.specs.Bus.{held, Ascend, IsLeast};

use crate::arrays::Kept;
use crate::order::{counted, least_difference, occurrences, stands_in};
use std::alloc::{AllocError, Global};
use std::marker::Model;

/// Tuples of numbers, which contracts see as a list of lists.
#[derive(Drop)]
pub struct TupleList {
    kept: Kept,
}

impl Model for TupleList {
    ghost use Rattle.std.specs.Prelude.{List, ℕ};
    ghost use Rattle.bus_check.specs.Bus.{held};

    ghost Value = { List (List ℕ) };

    ghost view = { λ s. held s.kept };
}

impl TupleList {
    /// No tuples. It takes no memory.
    pub fn new(alloc: Global) -> TupleList
        ensures { result ≡ [] }
    {
        TupleList {
            kept: Kept::for_width(alloc, 0),
        }
    }

    /// Puts a tuple at the end.
    #[inline]
    pub fn push(&mut self, alloc: Global, tuple: &[u64]) -> Result<(), AllocError>
        ensures { OnOk result (self.new ≡ self.old ++ tuple.now ∷ []) }
    {
        self.kept.push(alloc, tuple)
    }

    /// How many tuples there are.
    #[inline]
    pub fn len(&self) -> usize
        ensures { result ≡ length self.now }
    {
        self.kept.len()
    }

    /// The tuple at a place, if there is one.
    #[inline]
    pub fn get(&self, place: usize) -> Option<&[u64]>
        ensures there { MatchOption result (length self.now ≤ place) (λ t. (place < length self.now) × (t.now ≡ slice_index_or self.now place [])) }
        ensures stands { MatchOption result (Unit {0}) (λ t. times t.now self.now ≢ 0) }
    {
        if place < self.kept.len() {
            Some(self.kept.at(place))
        } else {
            None
        }
    }

    /// Puts copies of another list's tuples at the end.
    pub fn extend(&mut self, alloc: Global, other: &TupleList) -> Result<(), AllocError>
        ensures { OnOk result (self.new ≡ self.old ++ other.now) }
    {
        self.kept.extend(alloc, &other.kept)
    }

    /// Puts another list's tuples at the end.
    pub fn append(&mut self, alloc: Global, other: TupleList) -> Result<(), AllocError>
        ensures { OnOk result (self.new ≡ self.old ++ other) }
    {
        self.kept.append(alloc, other.kept)
    }

    /// How many of the numbers 0, 1, 2 and so on the list begins with, each as a tuple of its own.
    pub fn counted(&self) -> u64
        ensures stand { (v : ℕ) → v < result → times (v ∷ []) self.now ≢ 0 }
        ensures begins { (v : ℕ) → v < result → slice_index_or self.now v [] ≡ v ∷ [] }
        ensures within { result ≤ length self.now }
        ensures most { result < length self.now → slice_index_or self.now result [] ≢ result ∷ [] }
    {
        counted(&self.kept)
    }

    /// Puts the tuples in order. It takes no memory.
    pub fn sort(&mut self)
        ensures sorted { Ascend self.new }
        ensures times { (t : List ℕ) → times t self.new ≡ times t self.old }
    {
        self.kept.sort();
    }

    /// Whether a tuple stands in the list, which is in order.
    pub fn has(&self, tuple: &[u64]) -> bool
        requires { Ascend self.now }
        ensures { IsTrue result ↔ (times tuple.now self.now ≢ 0) }
    {
        stands_in(&self.kept, tuple)
    }

    /// How often a tuple stands in the list.
    pub fn count(&self, tuple: &[u64]) -> u64
        ensures { result ≡ times tuple.now self.now }
    {
        occurrences(&self.kept, tuple)
    }

    /// The least tuple that this list and another, which are in order, don't have equally often.
    pub fn difference<'a>(&'a self, other: &'a TupleList) -> Option<&'a [u64]>
        requires left { Ascend self.now }
        requires right { Ascend other.now }
        ensures { MatchOption result ((t : List ℕ) → times t self.now ≡ times t other.now) (λ t. IsLeast self.now other.now t.now) }
    {
        least_difference(&self.kept, &other.kept)
    }
}
