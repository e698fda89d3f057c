//! What the lines of the constraints are, as far as it can be computed.
ghost use Rattle.std.specs.Prelude.{◌≡◌, ℕ, true};
ghost use Rattle.pil_ast.specs.Term.{item_at, space_at};
ghost use Rattle.gold.specs.declared.shapes.Profile.{Profile as ProfileOf};
ghost use Rattle.machine_text.specs.Lines.{HasLines, lines_before, looks_in_table, names_no_public};
ghost use Rattle.machine_text.specs.Machine.{machine};
ghost use Rattle.machine_text.specs.Main;
ghost use Rattle.machine_text.specs.Mem;
ghost use Rattle.machine_text.specs.Align;
ghost use Rattle.machine_text.specs.Binary;
ghost use Rattle.machine_text.specs.Shift;
ghost use Rattle.machine_text.specs.Arith;

/// The machine has 266 lines, whatever the profile, and each namespace those of these numbers. No
/// expression names a public. On the right of an `in` constant columns stand alone, so a table can be
/// tested by itself once the constants are known. The call computes nothing.
pub fn machine_lines()
    ensures count { (p : ProfileOf) → lines_before (machine p) 13 ≡ 266 }
    ensures main { (p : ProfileOf) → HasLines (machine p) Main.here 1 20 }
    ensures mem { (p : ProfileOf) → HasLines (machine p) Mem.here 21 37 }
    ensures align { (p : ProfileOf) → HasLines (machine p) Align.here 38 74 }
    ensures binary { (p : ProfileOf) → HasLines (machine p) Binary.here 75 128 }
    ensures shift { (p : ProfileOf) → HasLines (machine p) Shift.here 129 157 }
    ensures arith_ { (p : ProfileOf) → HasLines (machine p) Arith.here 158 266 }
    ensures publics { (p : ProfileOf) (s k : ℕ) → names_no_public (item_at (space_at (machine p) s).items k) ≡ true }
    ensures tables { (p : ProfileOf) (s k : ℕ) → looks_in_table (machine p) (item_at (space_at (machine p) s).items k) ≡ true }
{}
