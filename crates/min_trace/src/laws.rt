//! What the records of a run say of each other's fields.
ghost use Rattle.std.specs.Prelude.{◌≡◌, ℕ};
ghost use Rattle.rv_model.specs.Image.{Img};
ghost use Rattle.rv_model.specs.Run.{state_at, step_at};
ghost use Rattle.min_trace.specs.Chunk.{IsStep};
ghost use Rattle.min_trace.specs.Record.{record_at, old_at, old_of};
ghost use Rattle.min_trace.specs.Laws.{Computes, Reads, Accesses, leads_to, written_by};

use rv_word::decoding_law;

/// The record of each step of a run agrees with the meaning of its instruction: c and flag are the operation's, a and s
/// are the registers' values, a load or a store touches the doubleword at c as the memory had it, rd comes to hold the
/// operation's value, the link or what was loaded, and the next pc follows from c and flag.
pub fn record_law()
    ensures computes { (image : Img) (j : ℕ) → Computes (record_at image j) }
    ensures reads { (image : Img) (j : ℕ) → Reads (record_at image j) (state_at image j) }
    ensures olds { (image : Img) (j : ℕ) → old_at image j ≡ old_of (record_at image j).mem }
    ensures accesses { (image : Img) (j : ℕ) → IsStep (step_at image j) → Accesses (record_at image j).instr (record_at image j) (state_at image j).word }
    ensures leads { (image : Img) (j : ℕ) → IsStep (step_at image j) → (record_at image j).next ≡ leads_to (record_at image j).instr (record_at image j) }
    ensures writes { (image : Img) (j : ℕ) → IsStep (step_at image j) → (record_at image j).rd ≡ written_by (record_at image j).instr (record_at image j) }
{
    decoding_law();
}
