//! Why a text is refused.
ghost use Rattle.std.specs.Prelude.{◌≡◌};
ghost use Rattle.pil_text.specs.declared.error.PilKind.TheVariants.{NoMemory};

use std::alloc::{AllocError, AllocFailed};
use thiserror::Error;

/// Which rule a text breaks (docs/PIL.md, "Refusals"), in the order in which the rules are tested; each is told at
/// the least offset at which it is broken.
#[derive(Clone, Copy, Debug, PartialEq, Eq, Error)]
pub enum PilKind {
    /// A byte begins no token, or a `/*` isn't closed.
    #[error("no token begins here")]
    BadByte,
    /// A number is 18446744069414584321 or more.
    #[error("the number is no element of the field")]
    NumberTooLarge,
    /// No file begins with the tokens up to this one, or the text ends too early.
    #[error("no file goes on so")]
    Unexpected,
    /// A parenthesis or prefix minus is nested more than 32 deep, or an expression has more than 128 operators.
    #[error("the expression is too deep")]
    TooDeep,
    /// A namespace, constant, public or polynomial of one namespace is declared again.
    #[error("the name is declared already")]
    Repeated,
    /// A name isn't declared, or a constant not yet; an index isn't below the array's length; an array stands
    /// without index, or another polynomial with one; a public names an intermediate or has a mark.
    #[error("the name isn't declared")]
    UnknownName,
    /// A namespace has no rows or more than 2^24, or a public's row isn't below them.
    #[error("no such row")]
    BadRow,
    /// A polynomial is of another namespace than the others of its identity, list or intermediate.
    #[error("the polynomial is of another namespace")]
    Mixed,
    /// An array's length is 0 or above 4,096, or a list has another number of expressions than the first of its
    /// line.
    #[error("wrong width")]
    WrongWidth,
    /// An intermediate polynomial depends on itself.
    #[error("the polynomial depends on itself")]
    CyclicPol,
    /// A mark stands on an intermediate whose expression, written out, has a mark.
    #[error("a mark on a mark")]
    DoubleMark,
    /// Memory ran out. It says nothing of the text.
    #[error("no memory")]
    NoMemory,
}

/// Why a text is refused, and the offset of the token that the rule names (0 for `NoMemory`).
#[derive(Clone, Copy, Debug, PartialEq, Eq, Error)]
#[error("{kind} at {at}")]
pub struct PilErr {
    pub kind: PilKind,
    pub at: u64,
}

impl From<AllocError> for PilErr {
    ghost from_gives = { λ _ e. e ≡ record { kind = NoMemory; at = 0 } };

    fn from(_e: AllocError) -> PilErr {
        PilErr {
            kind: PilKind::NoMemory,
            at: 0,
        }
    }
}

impl<T: Drop> From<AllocFailed<T>> for PilErr {
    ghost from_gives = { λ _ e. e ≡ record { kind = NoMemory; at = 0 } };

    fn from(_e: AllocFailed<T>) -> PilErr {
        PilErr {
            kind: PilKind::NoMemory,
            at: 0,
        }
    }
}
