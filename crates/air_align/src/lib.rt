//! The air Align: what its lines say of each row and of whole tables.
//!
//! A row is a load or a store in its doubleword, with the tuple that Main has for it. `align_laws` says what the rows that
//! meet the constraints mean, in both directions; `spaces` gives the constraints themselves, as they are
//! read from the machine's text.
#![tactic(auto)]

mod laws;
mod part;

pub use laws::align_laws;
pub use part::spaces;
