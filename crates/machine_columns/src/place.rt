//! Where a namespace has its columns.
ghost use Rattle.std.specs.Prelude.{◌≡◌};
ghost use Rattle.machine_columns.specs.Values.{constants_per};
ghost use Rattle.machine_columns.specs.Place.{air_in};

use zk_layout::{Air, Namespace};

/// How many of a namespace's columns are constant.
#[inline]
#[tactic(auto, unfolding(crate::specs::Values::constants_per))]
pub fn constants_of(space: Namespace) -> u32
    ensures { result ≡ constants_per space }
{
    match space {
        Namespace::Bit | Namespace::Range16 => 1,
        Namespace::BinTab => 3,
        Namespace::ShiftTab => 11,
        Namespace::Rom => 22,
        Namespace::Init => 4,
        Namespace::Main => 8,
        Namespace::Mem => 5,
        Namespace::Out => 2,
        Namespace::Align | Namespace::Binary | Namespace::Shift | Namespace::Arith => 0,
    }
}

/// The air whose tables hold a namespace's other columns; None where it has constants alone.
#[inline]
#[tactic(auto, unfolding(crate::specs::Place::air_in))]
pub(crate) fn air_of(space: Namespace) -> Option<Air>
    ensures { result ≡ air_in space }
{
    match space {
        Namespace::Bit
        | Namespace::Range16
        | Namespace::BinTab
        | Namespace::ShiftTab
        | Namespace::Rom
        | Namespace::Init => None,
        Namespace::Main => Some(Air::Main),
        Namespace::Mem => Some(Air::Mem),
        Namespace::Out => Some(Air::Out),
        Namespace::Align => Some(Air::Align),
        Namespace::Binary => Some(Air::Binary),
        Namespace::Shift => Some(Air::Shift),
        Namespace::Arith => Some(Air::Arith),
    }
}
