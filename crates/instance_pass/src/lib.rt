//! One pass over the rows of an instance: the first check that fails there and the first row at which
//! it does, and the tuples that the instance sends.
#![tactic(auto)]

mod checks;
mod parts;
mod passes;
mod scans;
mod senders;
mod sends;
mod tables;

pub use checks::Check;
pub use parts::Part;
pub use passes::{Asked, Found, Place, pass};
pub use senders::Sender;
pub use sends::send_rows;
pub use tables::Table;
