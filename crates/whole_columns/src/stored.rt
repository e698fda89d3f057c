//! All instances of the first namespaces.
ghost use Rattle.std.specs.Prelude.{◌≡◌};
ghost use Rattle.whole_columns.specs.Whole.{IsHeld};

use gold::{Columns as Cells, Fe, Profile, Sequence};
use pil_ast::Columns;
use pil_program::InstanceColumns;
use std::marker::Model;

/// The columns of all instances of the machine's first namespaces; the others have no instance.
/// Contracts see it as the profile, and the columns by namespace and instance.
#[derive(Drop)]
pub struct Stored {
    profile: Profile,
    spaces: Sequence<Sequence<Cells>>,
}

impl Model for Stored {
    ghost use Rattle.whole_columns.specs.Whole.{Held, IsHeld};

    ghost Value = { Held };

    ghost view = { λ f. record { profile = f.profile; spaces = f.spaces } };

    ghost invariant = { λ f. IsHeld (record { profile = f.profile; spaces = f.spaces }) };
}

impl Stored {
    /// The columns of these instances.
    pub fn new(profile: Profile, spaces: Sequence<Sequence<Cells>>) -> Stored
        requires { IsHeld (record { profile = profile; spaces = spaces }) }
        ensures { result ≡ record { profile = profile; spaces = spaces } }
    {
        Stored { profile, spaces }
    }
}

impl Columns for Stored {
    ghost use Rattle.whole_columns.specs.Whole.{values_of_held};

    ghost values = { λ f. values_of_held f };

    #[inline]
    fn instances(&self, space: u32) -> u32 {
        match self.spaces.as_slice().get(space as usize) {
            Some(instances) => instances.len() as u32,
            None => 0,
        }
    }

    #[inline]
    fn at(&self, space: u32, instance: u32, column: u32, row: u32) -> Fe {
        Fe::new(self.column(space, instance, column)[row as usize])
    }
}

impl InstanceColumns for Stored {
    #[inline]
    fn column(&self, space: u32, instance: u32, column: u32) -> &[u64] {
        let instances = self.spaces.as_slice()[space as usize].as_slice();
        let columns = instances[instance as usize].as_slice();
        columns[column as usize].as_slice()
    }
}
