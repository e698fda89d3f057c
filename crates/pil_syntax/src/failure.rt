//! Why reading stops.
ghost use Rattle.std.specs.Prelude.{◌≡◌, length};
ghost use Rattle.pil_syntax.specs.declared.failure.ReadError.TheVariants.{Memory};

use crate::tree::SyntaxErrKind;
use pil_token::Placed;
use std::alloc::{AllocError, AllocFailed};

/// What is wrong, and how many tokens are left there.
#[derive(Clone, Copy, Debug)]
pub struct Fault {
    pub kind: SyntaxErrKind,
    pub left: usize,
}

#[derive(Debug, Drop)]
pub enum ReadError {
    Memory,
    Fault(Fault),
}

impl From<AllocError> for ReadError {
    ghost from_gives = { λ _ e. e ≡ Memory };

    fn from(_e: AllocError) -> ReadError {
        ReadError::Memory
    }
}

pub fn unexpected(tokens: &[Placed]) -> ReadError
    ensures { result ≡ ReadError.Fault (record { kind = SyntaxErrKind.Unexpected; left = length tokens.now }) }
{
    ReadError::Fault(Fault {
        kind: SyntaxErrKind::Unexpected,
        left: tokens.len(),
    })
}

pub fn too_deep(tokens: &[Placed]) -> ReadError
    ensures { result ≡ ReadError.Fault (record { kind = SyntaxErrKind.TooDeep; left = length tokens.now }) }
{
    ReadError::Fault(Fault {
        kind: SyntaxErrKind::TooDeep,
        left: tokens.len(),
    })
}
