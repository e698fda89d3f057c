//! The sequential tables of a whole run, as a definition, and the table of a job of any air.
#![tactic(auto)]

mod expansion;
mod laws;
mod made;
mod naming;

pub use expansion::expand;
pub use laws::{one_making, tables_of_jobs};
pub use made::Made;
pub use naming::named;
