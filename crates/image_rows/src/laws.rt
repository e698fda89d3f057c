//! Laws of the definitions, each a clause of a function that does nothing.
ghost use Rattle.std.specs.Prelude.{◌≤◌, length};
ghost use Rattle.rv_model.specs.Image.{Img, IsLoadable};
ghost use Rattle.rv_model.specs.declared.machine.TheConstants.{MEMORY_WORDS};
ghost use Rattle.step_rows.specs.Initial.{initial_doublewords};
ghost use Rattle.step_rows.specs.Rom.{rom_rows};
ghost use Rattle.image_rows.specs.Laws.{IsRom, AreInitial};

/// Rom has one row for each executable word that is an instruction other than EBREAK, in order of pc.
pub fn rom_law()
    ensures { (image : Img) → IsLoadable image → IsRom image (rom_rows image) }
{}

/// The initial doublewords are those of memory that aren't 0 when a run starts, in order of their numbers.
pub fn initial_law()
    ensures { (image : Img) → AreInitial image (initial_doublewords image) }
{}
