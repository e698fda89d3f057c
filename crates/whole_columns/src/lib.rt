//! Columns of the machine's text that are held whole, so that they can be read as slices: of one
//! instance of a namespace, or of all instances of the first namespaces.
#![tactic(auto)]

mod frame;
mod laws;
mod stored;

pub use frame::Frame;
pub use laws::whole_laws;
pub use stored::Stored;
