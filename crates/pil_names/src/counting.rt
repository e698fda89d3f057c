//! Whether the numbers of names have 32 bits.
ghost use Rattle.std.specs.Prelude.{ℕ, ◌≡◌, ◌<◌, ◌^◌, ◌-◌, ◌↔◌, IsTrue, length, map, flat_map, min};
ghost use Rattle.pil_names.specs.Outline.{home_at};
ghost use Rattle.pil_names.specs.Finding.{public_names, published_name};
ghost use Rattle.pil_names.specs.Directory.{IsCountable};
ghost use Rattle.pil_names.specs.Shown.{outlined, draft, home};

use crate::outline::{Draft, Home, Outline};

/// How many numbers have 32 bits.
const NUMBERS: usize = 1 << 32;

impl<'a> Outline<'a> {
    /// Whether there are few enough names of each kind that their numbers have 32 bits.
    pub fn is_countable(&self) -> bool
        ensures { IsTrue result ↔ IsCountable (outlined self.now) }
    {
        let homes = self.homes.as_slice();
        self.constants.len() < NUMBERS
            && homes.len() < NUMBERS
            && count_publics(homes) < NUMBERS
            && are_items_countable(homes)
    }
}

/// How many of the items are publics.
fn count_publics_of(items: &[Draft]) -> usize
    ensures { result ≡ length (flat_map published_name (map draft items.now)) }
{
    let mut count: usize = 0;
    for item in items {
        if let Draft::Public { .. } = item {
            count += 1;
        }
    }
    count
}

/// How many publics there are, up to the greatest `usize`.
fn count_publics(homes: &[Home]) -> usize
    ensures { result ≡ min (length (public_names (map home homes.now))) (2 ^ 64 - 1) }
{
    let mut count: usize = 0;
    for home in homes {
        count = count.saturating_add(count_publics_of(home.items.as_slice()));
    }
    count
}

/// Whether each namespace has few enough items.
fn are_items_countable(homes: &[Home]) -> bool
    ensures { IsTrue result ↔ ((s : ℕ) → length (home_at (map home homes.now) s).items < 2 ^ 32) }
{
    for home in homes {
        if home.items.len() >= NUMBERS {
            return false;
        }
    }
    true
}
