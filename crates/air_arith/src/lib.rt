//! The air Arith: what its lines say of each row and of whole tables.
//!
//! A row is a product, a quotient or a remainder, with the tuple that Main has for it. `arith_laws` says what the rows that
//! meet the constraints mean, in both directions; `spaces` gives the constraints themselves, as they are
//! read from the machine's text.
#![tactic(auto)]

mod laws;
mod part;

pub use laws::arith_laws;
pub use part::spaces;
