//! A register's number.
ghost use Rattle.std.specs.Prelude.{◌≡◌, ℕ, ◌<◌};

use std::marker::Model;

/// The number of an integer register, below 32 (RISC-V Unprivileged ISA, 2.1).
#[derive(Clone, Copy, Debug, PartialEq, Eq)]
pub struct Reg {
    number: u8,
}

impl Model for Reg {
    ghost Value = { ℕ };

    ghost view = { λ r. r.number };

    ghost invariant = { λ r. r.number < 32 };

    ghost inverse = { λ n. record { number = n } };
}

impl Reg {
    /// The register of this number.
    #[inline(always)]
    pub fn new(number: u8) -> Self
        requires { number < 32 }
        ensures { result ≡ number }
    {
        Reg { number }
    }

    /// The register's number.
    #[inline(always)]
    pub fn number(self) -> u8
        ensures value { result ≡ self }
        ensures below { result < 32 }
    {
        self.number
    }
}
