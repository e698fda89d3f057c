//! Whether an `in` or an `is` of a constraint text holds of the tables, where it is broken first, and
//! which of all lines is the first broken one.
#![tactic(auto)]

mod arrays;
mod buses;
mod laws;
mod lines;
mod lookups;
mod order;
mod rows;
mod runs;
mod tuples;

pub use buses::first_difference;
pub use laws::{in_any_order, one_verdict};
pub use lines::{check_bus, first_broken};
pub use runs::BusRun;
pub use tuples::TupleList;

#[cfg(test)]
mod tests;
