//! The tables of the airs whose rows are those of steps: what is gathered of a job's steps, column by column.
#![tactic(auto)]

mod columns;
mod parts;
mod table;

pub use columns::Cell;
pub use parts::{byte, digit, flag};
pub use table::table_of_job;
