//! Why a table file was refused.
ghost use Rattle.std.specs.Prelude.{◌≡◌};
ghost use Rattle.tab_file.specs.declared.fault.TabKind.TheVariants.{NoMemory};

use std::alloc::{AllocError, AllocFailed};
use thiserror::Error;

/// What is wrong with the first item of a file that fails.
#[derive(Clone, Copy, Debug, PartialEq, Eq, Error)]
pub enum TabKind {
    /// An item isn't whole. The offset is the file's length.
    #[error("the file ends inside an item")]
    Short,
    /// The first four bytes aren't `ZKWT`.
    #[error("no table file begins so")]
    BadMagic,
    /// The version isn't the one of the shape's form: 2 under Two, else 1.
    #[error("the version is of another format")]
    BadVersion,
    /// The profile of a file in format 2 is neither 1 nor 2.
    #[error("the profile is neither 1 nor 2")]
    BadProfile,
    /// The number of airs isn't the shape's, or an instance's air isn't below it.
    #[error("no such number of airs, or no such air")]
    BadAir,
    /// A machine's file has no instance of Main.
    #[error("there is no instance of Main")]
    NoMain,
    /// A machine's file hasn't exactly one instance of Out.
    #[error("there is not exactly one instance of Out")]
    NotOneOut,
    /// An air has more instances than its shape allows.
    #[error("there are too many instances of an air")]
    TooMany,
    /// An instance isn't the next one in order of air, then number. The offset is where the instance
    /// begins.
    #[error("the instance is not the next one")]
    BadOrder,
    /// The number of columns or rows of an instance isn't its air's.
    #[error("the number of columns or rows is not that of the air")]
    BadShape,
    /// A value is p or more.
    #[error("the value is no element of the field")]
    NotCanonical,
    /// A byte follows the last instance.
    #[error("the file goes on after the last instance")]
    Trailing,
    /// Memory ran out. It says nothing of the file, and the offset is 0.
    #[error("no memory")]
    NoMemory,
}

/// The first item of a file that fails: what is wrong, and the offset in bytes from the file's start.
#[derive(Clone, Copy, Debug, PartialEq, Eq, Error)]
#[error("{kind}, at byte {at}")]
pub struct TabErr {
    pub kind: TabKind,
    pub at: u64,
}

impl From<AllocError> for TabErr {
    ghost from_gives = { λ _ e. e ≡ record { kind = NoMemory; at = 0 } };

    fn from(_e: AllocError) -> TabErr {
        TabErr {
            kind: TabKind::NoMemory,
            at: 0,
        }
    }
}

impl<T: Drop> From<AllocFailed<T>> for TabErr {
    ghost from_gives = { λ _ e. e ≡ record { kind = NoMemory; at = 0 } };

    fn from(_e: AllocFailed<T>) -> TabErr {
        TabErr {
            kind: TabKind::NoMemory,
            at: 0,
        }
    }
}
