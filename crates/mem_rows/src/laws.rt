//! What the accesses of a run have to do with each other.
ghost use Rattle.std.specs.Prelude.{◌<◌, ◌^◌, ℕ};
ghost use Rattle.rv_model.specs.Image.{Img, IsLoadable};
ghost use Rattle.rv_model.specs.Run.{RunsTo};
ghost use Rattle.rv_model.specs.declared.answer.Public.{Public};
ghost use Rattle.mem_rows.specs.Accesses.{accesses};
ghost use Rattle.mem_rows.specs.Order.{in_order};
ghost use Rattle.mem_rows.specs.Sequence.{IsSequenceOf};

use min_trace::{bounds_law, instruction_law, record_law, state_law};

/// In order, the accesses of a run that halts within 2^32 steps ascend by key and time, no two have one key and one
/// time, and each read has the last value written.
pub fn accesses_law()
    ensures { (image : Img) (n : ℕ) (public : Public) → IsLoadable image → n < 2 ^ 32 → RunsTo image n public → IsSequenceOf (accesses image n public) (in_order (accesses image n public)) }
{
    instruction_law();
    record_law();
    state_law();
    bounds_law();
}
