//! What holds of every answer.
ghost use Rattle.rv_model.specs.declared.answer.RunEnd.{RunEnd};
ghost use Rattle.std.specs.Prelude.{Result};
ghost use Rattle.rv_emu.specs.Answered.{Place, IsOnly};
ghost use Rattle.rv_emu.specs.declared.emu.Step.{Step};

use rv_model::run_law;

/// Wherever an emulator stands, it has one answer and no other, but for want of memory. So each answer comes exactly
/// where [`crate::Emu::next_chunk`] says that it comes.
pub fn one_answer()
    ensures { (p q r : Place) (a b : Result Step RunEnd) → IsOnly p q r a b }
{
    run_law();
}
