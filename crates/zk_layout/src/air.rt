//! The airs.
ghost use Rattle.std.specs.Prelude.{◌≡◌, ◌≤◌, ◌<◌};
ghost use Rattle.zk_layout.specs.Air.{air_number, rows_per, rows_in, columns_per, most_per, air_shape, air_of, airs};

use gold::{AirShape, Profile, WIDE_MAIN_ROWS};
use rv_word::OpNo;

/// A kind of table. A run has some instances of each, all with the same number of rows.
#[derive(Clone, Copy, Debug, PartialEq, Eq)]
pub enum Air {
    /// A row is a step.
    Main,
    /// A row is an access to memory or to a register.
    Mem,
    /// A row is the operation of a step: a sum, also with a shift, a difference, comparison, bitwise
    /// operation or conditional zero.
    Binary,
    /// A row is the operation of a step: a shift.
    Shift,
    /// A row is the operation of a step: a product, quotient or remainder.
    Arith,
    /// A row is a load's or store's access to memory.
    Align,
    /// A row is a final value: of x10, or of a doubleword of the output window. It has one instance.
    Out,
}

impl Air {
    /// The airs in the order of their numbers.
    pub const ALL: [Air; 7] = [
        Air::Main,
        Air::Mem,
        Air::Binary,
        Air::Shift,
        Air::Arith,
        Air::Align,
        Air::Out,
    ];

    /// The air's number in a table file, from 0 for Main to 6 for Out.
    #[tactic(auto, unfolding(crate::specs::Air::air_number))]
    pub fn number(self) -> u32
        ensures value { result ≡ air_number self }
        ensures below { result < 7 }
    {
        match self {
            Air::Main => 0,
            Air::Mem => 1,
            Air::Binary => 2,
            Air::Shift => 3,
            Air::Arith => 4,
            Air::Align => 5,
            Air::Out => 6,
        }
    }

    /// The rows of one instance in profile Small.
    #[tactic(auto, unfolding(crate::specs::Air::rows_per))]
    pub fn rows(self) -> u32
        ensures value { result ≡ rows_per self }
        ensures least { 64 ≤ result }
        ensures most { result ≤ 8192 }
    {
        match self {
            Air::Main => 4096,
            Air::Mem => 8192,
            Air::Binary => 4096,
            Air::Shift => 1024,
            Air::Arith => 1024,
            Air::Align => 2048,
            Air::Out => 64,
        }
    }

    /// The rows of one instance in a profile.
    pub fn rows_in(self, profile: Profile) -> u32
        ensures { result ≡ rows_in profile self }
    {
        match (profile, self) {
            (Profile::Wide, Air::Main) => WIDE_MAIN_ROWS,
            _ => self.rows(),
        }
    }

    /// The columns of one instance in a table file.
    #[tactic(auto, unfolding(crate::specs::Air::columns_per))]
    pub fn columns(self) -> u32
        ensures { result ≡ columns_per self }
    {
        match self {
            Air::Main => 37,
            Air::Mem => 15,
            Air::Binary => 57,
            Air::Shift => 30,
            Air::Arith => 79,
            Air::Align => 38,
            Air::Out => 2,
        }
    }

    /// The most instances in profile Small.
    #[tactic(auto, unfolding(crate::specs::Air::most_per))]
    pub fn most(self) -> u32
        ensures { result ≡ most_per self }
    {
        match self {
            Air::Main | Air::Binary => 1 << 20,
            Air::Mem | Air::Shift | Air::Arith => 1 << 22,
            Air::Align => 1 << 21,
            Air::Out => 1,
        }
    }

    /// The air's rows, columns and most instances in profile Small.
    pub fn shape(self) -> AirShape
        ensures { result ≡ air_shape self }
    {
        AirShape {
            rows: self.rows(),
            columns: self.columns(),
            most: self.most(),
        }
    }

    /// The air whose rows have the operation: Binary, Shift or Arith.
    #[tactic(auto, unfolding(crate::specs::Air::air_of, rv_word::specs::Numbers::op_number))]
    pub fn of_operation(op: OpNo) -> Air
        ensures { result ≡ air_of op }
    {
        match op {
            OpNo::Add
            | OpNo::Sub
            | OpNo::Ltu
            | OpNo::Lt
            | OpNo::Eq
            | OpNo::And
            | OpNo::Or
            | OpNo::Xor
            | OpNo::Addw
            | OpNo::Subw
            | OpNo::Sh1add
            | OpNo::Sh2add
            | OpNo::Sh3add
            | OpNo::Czeqz
            | OpNo::Cznez => Air::Binary,
            OpNo::Sll | OpNo::Srl | OpNo::Sra | OpNo::Sllw | OpNo::Srlw | OpNo::Sraw => Air::Shift,
            OpNo::Mul
            | OpNo::Mulh
            | OpNo::Mulhsu
            | OpNo::Mulhu
            | OpNo::Div
            | OpNo::Divu
            | OpNo::Rem
            | OpNo::Remu
            | OpNo::Mulw
            | OpNo::Divw
            | OpNo::Divuw
            | OpNo::Remw
            | OpNo::Remuw => Air::Arith,
        }
    }
}
