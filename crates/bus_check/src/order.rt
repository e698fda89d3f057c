//! The order of tuples: they are compared number by number from the first.
ghost use Rattle.std.specs.Prelude.{◌≡◌, ◌≢◌, ◌<◌, ◌≤◌, ◌↔◌, ◌∷◌, [], List, ℕ, cond, length, slice_index_or, IsTrue, MatchOption};
ghost use Rattle.std.specs.Ordering.{nat_cmp, is_lt};
ghost use Rattle.std.specs.Cmp.Lexicographic.{slice_cmp};
ghost use Rattle.pil_ast.specs.Holds.{times};
ghost use Rattle.bus_check.specs.Bus.{held, Ascend, IsLeast, PartAt};

use crate::arrays::Kept;
use std::cmp::Ordering;

/// The lesser of two tuples.
pub fn lesser<'a>(left: &'a [u64], right: &'a [u64]) -> &'a [u64]
    ensures { result.now ≡ cond (is_lt (slice_cmp nat_cmp left.now right.now)) left.now right.now }
{
    if left.cmp(&right).is_lt() {
        left
    } else {
        right
    }
}

/// The place before which two lists have the same tuples, and at which they differ or one ends.
pub fn parting(left: &Kept, right: &Kept) -> usize
    ensures { PartAt (held left.now) (held right.now) result }
{
    let shorter = left.len().min(right.len());
    for place in 0..shorter {
        if left.at(place) != right.at(place) {
            return place;
        }
    }
    shorter
}

/// How often a tuple stands in a list.
pub fn occurrences(tuples: &Kept, tuple: &[u64]) -> u64
    ensures { result ≡ times tuple.now (held tuples.now) }
{
    let mut count = 0;
    for place in 0..tuples.len() {
        if tuples.at(place) == tuple {
            count += 1;
        }
    }
    count
}

/// Whether a tuple is one number alone.
fn is_alone(tuple: &[u64], value: u64) -> bool
    ensures { IsTrue result ↔ (tuple.now ≡ value ∷ []) }
{
    match tuple {
        [only] => *only == value,
        _ => false,
    }
}

/// How many of the numbers 0, 1, 2 and so on a list begins with, each as a tuple of its own.
pub fn counted(tuples: &Kept) -> u64
    ensures stand { (v : ℕ) → v < result → times (v ∷ []) (held tuples.now) ≢ 0 }
    ensures begins { (v : ℕ) → v < result → slice_index_or (held tuples.now) v [] ≡ v ∷ [] }
    ensures within { result ≤ length (held tuples.now) }
    ensures most { result < length (held tuples.now) → slice_index_or (held tuples.now) result [] ≢ result ∷ [] }
{
    for place in 0..tuples.len() {
        if !is_alone(tuples.at(place), place as u64) {
            return place as u64;
        }
    }
    tuples.len() as u64
}

/// Whether a tuple stands in a list that is in order.
pub fn stands_in(tuples: &Kept, tuple: &[u64]) -> bool
    requires { Ascend (held tuples.now) }
    ensures { IsTrue result ↔ (times tuple.now (held tuples.now) ≢ 0) }
{
    let mut low = 0;
    let mut high = tuples.len();
    while low < high {
        let middle = low + (high - low) / 2;
        match tuples.at(middle).cmp(&tuple) {
            Ordering::Less => low = middle + 1,
            Ordering::Equal => return true,
            Ordering::Greater => high = middle,
        }
    }
    false
}

/// The least tuple that two lists, which are in order, don't have equally often.
pub fn least_difference<'a>(left: &'a Kept, right: &'a Kept) -> Option<&'a [u64]>
    requires left { Ascend (held left.now) }
    requires right { Ascend (held right.now) }
    ensures { MatchOption result ((t : List ℕ) → times t (held left.now) ≡ times t (held right.now)) (λ t. IsLeast (held left.now) (held right.now) t.now) }
{
    let place = parting(left, right);
    if place < left.len() {
        if place < right.len() {
            Some(lesser(left.at(place), right.at(place)))
        } else {
            Some(left.at(place))
        }
    } else if place < right.len() {
        Some(right.at(place))
    } else {
        None
    }
}
