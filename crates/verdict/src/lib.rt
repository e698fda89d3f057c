//! The verdict on tables: they satisfy the machine's constraints, or a line is the first that they break.
#![tactic(auto)]

mod constants;
mod judgement;
mod judging;
mod laws;
mod run;
mod told;

pub use judgement::Judgement;
pub use judging::verdict;
pub use laws::{file_laws, judgement_laws, soundness_laws};
pub use run::VerdictRun;
