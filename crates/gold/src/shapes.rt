//! The shape that tables must have.
ghost use Rattle.std.specs.Prelude.{◌≡◌, ◌↔◌, IsTrue, true};
ghost use Rattle.gold.specs.Shapes.{is_machine, widened};

use crate::Sequence;

/// The rows of an instance of Main in profile Wide.
pub const WIDE_MAIN_ROWS: u32 = 16_384;

/// The most instances of Main in profile Wide.
pub const WIDE_MAIN_MOST: u32 = 1 << 18;

/// How large the instances of a machine's Main are. All other airs are the same in both profiles.
#[derive(Clone, Copy, Debug, PartialEq, Eq)]
pub enum Profile {
    /// Main has the rows and the most instances that its shape tells.
    Small,
    /// Main has `WIDE_MAIN_ROWS` rows, and at most `WIDE_MAIN_MOST` instances.
    Wide,
}

/// What tables a shape is for, and in which format their file is.
#[derive(Clone, Copy, Debug, PartialEq, Eq)]
pub enum Form {
    /// The tables of a constraint text, in format 1.
    Plain,
    /// The machine's tables in format 1. Their profile is Small.
    One,
    /// The machine's tables in format 2, which tells their profile.
    Two,
}

impl Form {
    /// Whether tables of this form are the machine's, which have an instance of Main and exactly one of
    /// Out.
    #[inline]
    pub fn is_machine(self) -> bool
        ensures { result ≡ is_machine self }
    {
        match self {
            Form::Plain => false,
            Form::One | Form::Two => true,
        }
    }
}

/// What each instance of an air has.
#[derive(Clone, Copy, Debug, PartialEq, Eq)]
pub struct AirShape {
    /// The rows of an instance.
    pub rows: u32,
    /// The columns of an instance.
    pub columns: u32,
    /// The most instances that the air may have.
    pub most: u32,
}

impl AirShape {
    /// Main in profile Wide: these columns, and Wide's rows and most instances.
    #[inline]
    pub fn widened(self) -> AirShape
        ensures { result ≡ widened self }
    {
        AirShape {
            rows: WIDE_MAIN_ROWS,
            columns: self.columns,
            most: WIDE_MAIN_MOST,
        }
    }
}

/// The airs of a machine or of a constraint text, by number.
#[derive(Debug, Drop)]
pub struct Shape {
    /// The airs in profile Small.
    pub airs: Sequence<AirShape>,
    /// What tables it is for. It is marked as the machine's where this isn't Plain.
    pub form: Form,
}
