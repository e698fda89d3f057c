//! The right side of an `in`.
ghost use Rattle.std.specs.Prelude.{◌≡◌, ◌≢◌, ◌<◌, ◌↔◌, ◌∷◌, ℕ, [], List, true, IsTrue, IfOk, MatchOption};
ghost use Rattle.pil_ast.specs.Holds.{times};

use bus_check::TupleList;
use std::alloc::{AllocError, Global};
use std::marker::Model;

/// Tuples that can be looked up. Contracts see them as the list of them.
#[derive(Drop)]
pub struct Table {
    tuples: TupleList,
    /// Each number below it stands there as a tuple of its own.
    bound: u64,
    /// By a slot of its code, or the one beside, the place of a tuple; nothing rests on it.
    places: Vec<u32>,
}

/// What a slot holds that no tuple has.
const NO_PLACE: u32 = u32::MAX;

/// For how many tuples there are slots of their own.
const MOST_PLACES: usize = 1 << 24;

/// The code of a tuple goes on with one more number.
#[inline]
pub(crate) fn next_code(code: u64, value: u64) -> u64 {
    (code ^ value).wrapping_mul(0x9e37_79b9_7f4a_7c15)
}

/// A code of the slot beside a code's own.
#[inline]
pub(crate) fn beside(code: u64) -> u64 {
    code ^ (1 << 24)
}

/// The slot of a code among so many, a power of two.
#[inline]
fn slot(code: u64, slots: usize) -> usize {
    (code >> 24) as usize & slots.wrapping_sub(1)
}

/// Puts a place into the slot of a code if it is free, else into the one beside.
fn put_place(places: &mut Vec<u32>, code: u64, place: u32) {
    let own = slot(code, places.len());
    let other = slot(beside(code), places.len());
    let chosen = if places.get(own) == Some(&NO_PLACE) {
        own
    } else {
        other
    };
    if let Some(kept) = places.get_mut(chosen) {
        *kept = place;
    }
}

/// A place for each code that a tuple has.
fn places_of(alloc: Global, tuples: &TupleList) -> Result<Vec<u32>, AllocError> {
    let slots = (4 * tuples.len().min(MOST_PLACES)).next_power_of_two();
    let mut places = vec![in alloc; NO_PLACE; slots]?;
    for place in 0..tuples.len().min(NO_PLACE as usize) {
        if let Some(tuple) = tuples.get(place) {
            put_place(&mut places, code_of(tuple), place as u32);
        }
    }
    Ok(places)
}

/// The code of a tuple.
fn code_of(tuple: &[u64]) -> u64 {
    let mut code = 0;
    for value in tuple {
        code = next_code(code, *value);
    }
    code
}

impl Model for Table {
    ghost use Rattle.std.specs.Prelude.{◌<◌, ◌≢◌, ◌∷◌, [], List, ℕ};
    ghost use Rattle.pil_ast.specs.Holds.{times};
    ghost use Rattle.bus_check.specs.Bus.{Ascend};

    ghost Value = { List (List ℕ) };

    ghost view = { λ t. t.tuples };

    ghost invariant = { λ t. Ascend t.tuples × ((v : ℕ) → v < t.bound → times (v ∷ []) t.tuples ≢ 0) };
}

impl Table {
    /// A table of these tuples.
    pub fn new(alloc: Global, tuples: TupleList) -> Result<Table, AllocError>
        ensures { IfOk result (λ table. (t : List ℕ) → times t table ≡ times t tuples) }
    {
        let mut tuples = tuples;
        tuples.sort();
        let bound = tuples.counted();
        let places = places_of(alloc, &tuples)?;
        Ok(Table {
            tuples,
            bound,
            places,
        })
    }

    /// A tuple of the table that may be the one with this code.
    #[inline]
    pub(crate) fn likely(&self, code: u64) -> Option<&[u64]>
        ensures { MatchOption result (Unit {0}) (λ t. times t.now self.now ≢ 0) }
    {
        match self.places.get(slot(code, self.places.len())) {
            Some(place) => self.tuples.get(*place as usize),
            None => None,
        }
    }

    /// Whether a number that is told at once stands in the table as a tuple of its own.
    #[inline]
    pub(crate) fn covers(&self, value: u64) -> bool
        ensures { result ≡ true → times (value ∷ []) self.now ≢ 0 }
    {
        value < self.bound
    }

    /// Whether a tuple stands in the table.
    pub fn has(&self, tuple: &[u64]) -> bool
        ensures { IsTrue result ↔ (times tuple.now self.now ≢ 0) }
    {
        self.tuples.has(tuple)
    }
}
