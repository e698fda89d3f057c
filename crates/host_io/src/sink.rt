//! What takes the bytes of a file.
ghost use Rattle.std.specs.Prelude.{◌≡◌, ◌<◌, ◌≤◌, ◌+◌, ◌^◌, ◌++◌, ℕ, List, [], length, OnOk};

use std::alloc::{AllocError, Global};

/// What takes the bytes of a file, piece by piece.
pub trait Sink {
    /// Whether it is as the second, where it was as the first and was given these bytes since.
    ghost given: { Self → Self → List ℕ → Type 0 };

    /// Whether it can take a piece.
    ghost ready: { Self → Type 0 };

    /// How many bytes it counts, which are no more than it was given.
    ghost taken: { Self → ℕ };

    /// Takes the next piece. After an `Err` it is of no more use.
    ///
    /// # Errors
    ///
    /// Memory ran out.
    fn take(&mut self, piece: &[u8]) -> Result<(), AllocError>
        requires ready { ready self.old }
        requires room { taken self.old + length piece.now < 2 ^ 64 }
        ensures given { OnOk result ((start : Self) (bytes : List ℕ) → given start self.old bytes → given start self.new (bytes ++ piece.now)) }
        ensures ready { OnOk result (ready self.new) }
        ensures taken { OnOk result (taken self.new ≤ taken self.old + length piece.now) };
}

/// It keeps all bytes.
#[derive(Drop)]
pub(crate) struct Kept {
    pub(crate) bytes: Vec<u8>,
}

impl Kept {
    /// No byte.
    pub(crate) fn new(alloc: Global) -> Kept
        ensures { result.bytes.items ≡ [] }
    {
        Kept {
            bytes: Vec::new(alloc),
        }
    }
}

impl Sink for Kept {
    ghost given = { λ start now bytes. now.bytes.items ≡ start.bytes.items ++ bytes };

    ghost ready = { λ kept. Unit {0} };

    ghost taken = { λ kept. length kept.bytes.items };

    fn take(&mut self, piece: &[u8]) -> Result<(), AllocError> {
        self.bytes.extend_from_slice(piece)?;
        Ok(())
    }
}
