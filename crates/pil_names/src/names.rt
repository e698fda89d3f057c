//! A map from names to numbers.
ghost use Rattle.std.specs.Prelude.{◌≡◌, [], is_some, IfOk, OnOk};
ghost use Rattle.pil_names.specs.Directory.{number_of, Lists, Adds};

use std::alloc::{AllocError, Global};
use std::collections::BTreeMap;

/// Numbers by name.
#[derive(Drop)]
pub struct Names {
    numbers: BTreeMap<Vec<u8>, u32>,
}

impl Names {
    /// No names.
    pub fn new(alloc: Global) -> Names
        ensures { Lists result [] }
    {
        Names {
            numbers: BTreeMap::new(alloc),
        }
    }

    /// Whether a name has a number.
    fn contains(&self, name: &[u8]) -> bool
        ensures { result ≡ is_some (number_of self.now name.now) }
    {
        self.numbers.contains_key(name)
    }

    /// Gives a name its number, unless it has one; tells whether it has.
    pub fn add(&mut self, alloc: Global, name: &[u8], number: u32) -> Result<bool, AllocError>
        ensures stood { IfOk result (λ stood. stood ≡ is_some (number_of self.old name.now)) }
        ensures added { OnOk result (Adds self.old name.now number self.new) }
    {
        if self.contains(name) {
            return Ok(true);
        }
        self.numbers.insert(Vec::from_slice(alloc, name)?, number)?;
        Ok(false)
    }

    /// The number of a name: None exactly where it has none.
    pub fn find(&self, name: &[u8]) -> Option<u32>
        ensures { result ≡ number_of self.now name.now }
    {
        self.numbers.get(name).copied()
    }
}
