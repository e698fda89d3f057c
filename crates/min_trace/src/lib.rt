//! Runs by parts: a chunk is some steps of a run, and a replay gives what each of its steps did.
//! The replay takes no memory: the chunk keeps what its loads and stores found.
#![tactic(auto)]

mod chunk;
mod laws;
mod operands;
mod record;
mod replay;
mod run_laws;
mod walk;

pub use chunk::{Chunk, MOST_CHUNKS, STEPS_PER_CHUNK};
pub use laws::record_law;
pub use operands::{constant_of, op_of, rd_of, rs1_of, rs2_of, uw_of};
pub use record::{MemAct, StepRecord};
pub use replay::Replay;
pub use run_laws::{bounds_law, chunk_law, execution_law, instruction_law, state_law};
