//! The instances that are still to come, in the order of the file.
ghost use Rattle.std.specs.Prelude.{◌≡◌, ◌∷◌, [], length, MatchOption};
ghost use Rattle.gold.specs.Shapes.{places_from};
ghost use Rattle.tab_file.specs.Parts.{place_of, left};

use gold::AirShape;

/// The instance that is due.
#[derive(Clone, Copy)]
pub(crate) struct Due {
    /// How many airs there are.
    pub(crate) airs: u64,
    /// The air's number.
    pub(crate) number: u64,
    pub(crate) instance: u32,
    pub(crate) form: AirShape,
}

/// The airs, how many instances there are of each, and the instance that comes next: the air's number, and its
/// number within the air, which may be past the air's last.
#[derive(Drop)]
pub(crate) struct Coming {
    airs: Vec<AirShape>,
    counts: Vec<u32>,
    number: usize,
    instance: u32,
}

impl Coming {
    /// All instances of these airs.
    pub(crate) fn new(airs: Vec<AirShape>, counts: Vec<u32>) -> Coming
        ensures airs { result.airs.items ≡ airs.items }
        ensures counts { result.counts.items ≡ counts.items }
        ensures all { left result ≡ places_from 0 airs.items counts.items }
    {
        Coming {
            airs,
            counts,
            number: 0,
            instance: 0,
        }
    }

    /// How many instances of each air there are.
    pub(crate) fn counts(&self) -> &[u32]
        ensures { result.now ≡ self.now.counts.items }
    {
        self.counts.as_slice()
    }

    /// The next instance, which is taken out.
    pub(crate) fn next(&mut self) -> Option<Due>
        ensures airs { self.new.airs.items ≡ self.old.airs.items }
        ensures counts { self.new.counts.items ≡ self.old.counts.items }
        ensures next { MatchOption result (left self.old ≡ []) (λ due. left self.old ≡ place_of due ∷ left self.new) }
        ensures count { MatchOption result (Unit {0}) (λ due. due.airs ≡ length self.old.airs.items) }
    {
        while self.number < self.airs.len() && self.number < self.counts.len() {
            if self.instance < self.counts[self.number] {
                let due = Due {
                    airs: self.airs.len() as u64,
                    number: self.number as u64,
                    instance: self.instance,
                    form: self.airs[self.number],
                };
                self.instance += 1;
                return Some(due);
            }
            self.number += 1;
            self.instance = 0;
        }
        None
    }
}
