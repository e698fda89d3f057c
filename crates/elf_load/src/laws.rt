//! Laws of the loader's definitions.
ghost use Rattle.std.specs.Prelude.{◌≡◌, ◌⊎◌, ◌+◌, ◌<◌, ◌≤◌, ◌^◌, ℕ, List, length, slice_index};
ghost use Rattle.rv_model.specs.Image.{Img, AreBytes, IsLoadable};
ghost use Rattle.rv_model.specs.declared.machine.TheConstants.{INPUT_LEN};
ghost use Rattle.elf_load.specs.declared.error.ElfErr.{ElfErr};
ghost use Rattle.elf_load.specs.declared.error.ElfErr.TheVariants.{TooMuchData};
ghost use Rattle.elf_load.specs.File.{headers_of};
ghost use Rattle.elf_load.specs.Refusal.{data_size, Refused};
ghost use Rattle.elf_load.specs.Loads.{Loads};

/// A file with an input has exactly one image, or the file has exactly one refusal, and never both.
pub fn one_answer()
    ensures some { (file input : List ℕ) → ((image : Img) × Loads file input image) ⊎ ((e : ElfErr) × Refused file e) }
    ensures one_image { (file input : List ℕ) (i j : Img) → Loads file input i → Loads file input j → i ≡ j }
    ensures one_refusal { (file : List ℕ) (e f : ElfErr) → Refused file e → Refused file f → e ≡ f }
    ensures not_both { (file input : List ℕ) (i : Img) (e : ElfErr) → Loads file input i → Refused file e → ⊥ }
{}

/// What a file of bytes and an input that fits are is an image that the machine can run.
pub fn loaded_is_loadable()
    ensures { (file input : List ℕ) (image : Img) → AreBytes file → AreBytes input → length input + 8 ≤ INPUT_LEN → Loads file input image → IsLoadable image }
{}

/// Another input changes nothing of an image but its input, and a file is refused with each input or
/// with none. So a file may be tested before its input is there.
pub fn input_apart()
    ensures { (file input given : List ℕ) (i : Img) → Loads file given i → Loads file input (record i { input = input }) }
{}

/// The number that `TooMuchData` names is the sum itself in each file of fewer than 2^48 bytes.
pub fn exact_size()
    ensures { (file : List ℕ) (n : ℕ) → ((i : ℕ) → slice_index file i < 256) → length file < 2 ^ 48 → Refused file (TooMuchData n) → n ≡ data_size (headers_of file) }
{}
