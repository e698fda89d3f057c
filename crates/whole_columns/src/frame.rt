//! One instance.
ghost use Rattle.std.specs.Prelude.{◌≡◌, ◌++◌};
ghost use Rattle.whole_columns.specs.Whole.{IsFramed};

use gold::{Column, Columns as Cells, Fe, Profile};
use pil_ast::Columns;
use pil_program::InstanceColumns;
use std::marker::Model;

/// The columns of one instance of a namespace: some that it has, and behind them others that lie
/// elsewhere. Contracts see it as the profile, the place, and the list of all these columns.
#[derive(Drop)]
pub struct Frame<'a> {
    profile: Profile,
    space: u32,
    instance: u32,
    first: Cells,
    others: &'a [Column],
}

impl<'a> Model for Frame<'a> {
    ghost use Rattle.std.specs.Prelude.{◌++◌};
    ghost use Rattle.whole_columns.specs.Whole.{Framed, IsFramed};

    ghost Value = { Framed };

    ghost view = { λ f. record { profile = f.profile; space = f.space; instance = f.instance; columns = f.first ++ f.others.now } };

    ghost invariant = { λ f. IsFramed (record { profile = f.profile; space = f.space; instance = f.instance; columns = f.first ++ f.others.now }) };
}

impl<'a> Frame<'a> {
    /// The instance whose columns are the first ones and the others behind them.
    pub fn new(
        profile: Profile,
        space: u32,
        instance: u32,
        first: Cells,
        others: &'a [Column],
    ) -> Frame<'a>
        requires { IsFramed (record { profile = profile; space = space; instance = instance; columns = first ++ others.now }) }
        ensures { result ≡ record { profile = profile; space = space; instance = instance; columns = first ++ others.now } }
    {
        Frame {
            profile,
            space,
            instance,
            first,
            others,
        }
    }
}

impl<'a> Columns for Frame<'a> {
    ghost use Rattle.whole_columns.specs.Whole.{values_of_frame};

    ghost values = { λ f. values_of_frame f };

    #[inline]
    fn instances(&self, space: u32) -> u32 {
        if space == self.space {
            self.instance + 1
        } else {
            0
        }
    }

    #[inline]
    fn at(&self, space: u32, instance: u32, column: u32, row: u32) -> Fe {
        Fe::new(self.column(space, instance, column)[row as usize])
    }
}

impl<'a> InstanceColumns for Frame<'a> {
    #[inline]
    fn column(&self, _space: u32, _instance: u32, column: u32) -> &[u64] {
        let number = column as usize;
        let first = self.first.as_slice();
        if number < first.len() {
            first[number].as_slice()
        } else {
            self.others[number - first.len()].as_slice()
        }
    }
}
