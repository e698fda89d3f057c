//! What the machine's lines say of Main's rows together: they are the steps of the image's run, and the publics are those
//! that the run leaves.
//!
//! The order matters, since each law rests on those before it alone: the chain of rows, the accesses of the bus, the
//! induction over steps, the run and its public.
#![tactic(auto)]

mod laws;

pub use laws::{chain_laws, headline_laws, machine_laws, machine_stands, run_laws};
