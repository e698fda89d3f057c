//! Laws of the definitions.
ghost use Rattle.std.specs.Prelude.{◌≡◌, ◌<◌, ◌^◌, ℕ};
ghost use Rattle.rv_word.specs.declared.instr.Kind.{Kind};
ghost use Rattle.rv_word.specs.declared.instr.OpNo.{OpNo};
ghost use Rattle.rv_model.specs.Image.{Img, AreBytes, IsLoadable, initial_word};
ghost use Rattle.rv_model.specs.Op.{value_of};
ghost use Rattle.rv_model.specs.Align.{aligned};
ghost use Rattle.rv_model.specs.State.{State, step};
ghost use Rattle.rv_model.specs.Run.{EndsOnce};
ghost use Rattle.rv_model.specs.ByteMachine.{byte_step, by_bytes, answer_by_bytes, HasDoublewords};

use rv_word::decoding_law;

/// The machine, whose memory is doublewords, is the machine whose memory is bytes: from a state by bytes the latter's
/// step answers what the former's does, by bytes.
pub fn byte_machine()
    ensures { (image : Img) (s : State) → HasDoublewords s → byte_step image (by_bytes s) ≡ answer_by_bytes (step image s) }
{
    decoding_law();
}

/// Each item of bytes is below 256, as an image keeps it of its segments and of its input.
#[inline(always)]
pub fn bytes_law(bytes: &[u8])
    ensures { AreBytes bytes.now }
{}

/// An image's doublewords are numbers of 64 bits when its run starts, and its entry lies in memory.
pub fn words_law()
    ensures words { (image : Img) (k : ℕ) → IsLoadable image → initial_word image k < 2 ^ 64 }
    ensures entry { (image : Img) → IsLoadable image → image.entry < 2 ^ 32 }
{}

/// Of numbers of 64 bits an operation makes one, and so do loads and stores.
pub fn values_law()
    ensures operations { (o : OpNo) (a b : ℕ) → a < 2 ^ 64 → b < 2 ^ 64 → value_of o a b < 2 ^ 64 }
    ensures accesses { (kind : Kind) (off old value : ℕ) → off < 8 → old < 2 ^ 64 → value < 2 ^ 64 → aligned kind off old value < 2 ^ 64 }
{}

/// Within a limit a run has one end and no other.
pub fn run_law()
    ensures { (image : Img) (limit : ℕ) → EndsOnce image limit }
{}
