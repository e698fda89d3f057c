//! What lines say of whole tables: general lemmas over the definitions of `pil_ast`, for proofs.
//!
//! Other crates may cite `proofs/`. The laws below are its main results, so that they are proved by
//! themselves.
#![tactic(auto)]

mod laws;

pub use laws::{joint_law, sent_laws, table_law, text_laws};
