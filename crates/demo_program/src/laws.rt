//! What a demo program's run comes to.
ghost use Rattle.std.specs.Prelude.{◌≡◌, ◌+◌, ℕ, All, List, []};
ghost use Rattle.rv_model.specs.Image.{AreBytes, Img};
ghost use Rattle.rv_model.specs.Run.{RunsTo};
ghost use Rattle.rv_model.specs.declared.answer.Public.{Public};
ghost use Rattle.elf_load.specs.Loads.{Loads};
ghost use Rattle.demo_program.specs.declared.kind.DemoKind.{DemoKind};
ghost use Rattle.demo_program.specs.Program.{instructions};
ghost use Rattle.demo_program.specs.Demo.{demo_file, HasWord, IsSize};

use elf_load::one_answer;
use rv_word::decoding_law;

/// A demo program's file is bytes, and each word of it stands for its instruction.
pub fn demo_words()
    ensures words { (number : ℕ) (kind : DemoKind) (size : ℕ) → All HasWord (instructions number kind size) }
    ensures bytes { (number : ℕ) (kind : DemoKind) (size : ℕ) → AreBytes (demo_file number kind size) }
{}

/// A demo program's file loads without input, and the run of each image that it loads as halts with exit code 0 after
/// one step for each instruction.
pub fn demo_runs()
    ensures loads { (number : ℕ) (kind : DemoKind) (size : ℕ) → IsSize size → (image : Img) × Loads (demo_file number kind size) [] image }
    ensures halts { (number : ℕ) (kind : DemoKind) (size : ℕ) (image : Img) → IsSize size → Loads (demo_file number kind size) [] image
        → (public : Public) × RunsTo image (size + 21) public × (public.exit ≡ 0) }
{
    one_answer();
    decoding_law();
}
