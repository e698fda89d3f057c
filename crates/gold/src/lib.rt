//! The field of the numbers below p = 2^64 - 2^32 + 1, and the types of tables of its values: what a
//! witness is, and the shape that it must have.
#![tactic(auto)]

mod cells;
mod field;
mod halves;
mod instances;
mod sequence;
mod shapes;

pub use cells::{Column, Columns};
pub use field::{Fe, P};
pub use halves::{join_limbs, limbs};
pub use instances::{Table, Tables, Witness};
pub use sequence::Sequence;
pub use shapes::{AirShape, Form, Profile, Shape, WIDE_MAIN_MOST, WIDE_MAIN_ROWS};

#[cfg(test)]
mod tests;
