//! The namespaces of this crate as they stand in the machine's text.
ghost use Rattle.std.specs.Prelude.{◌≡◌, ◌<◌, [], ◌∷◌, IfOk, map, length};
ghost use Rattle.std.specs.List.{remove};
ghost use Rattle.pil_ast.specs.Tree.{namespace};
ghost use Rattle.machine_text.specs.Bit;
ghost use Rattle.machine_text.specs.Range16;
ghost use Rattle.machine_text.specs.BinTab;
ghost use Rattle.machine_text.specs.ShiftTab;
ghost use Rattle.machine_text.specs.Binary;
ghost use Rattle.machine_text.specs.Shift;

use gold::Profile;
use machine_text::machine;
use pil_ast::Space;
use sqlite_items::Items;
use std::alloc::{AllocError, Global};

/// Leaves out the namespace at a place.
fn leave_out(spaces: &mut Items<Space>, at: usize)
    requires { at < length (map namespace spaces.old) }
    ensures { map namespace spaces.new ≡ remove (map namespace spaces.old) at }
{
    let _ = spaces.remove(at);
}

/// The namespaces of the operations and of the tables that they look up, as the reader makes them of the
/// machine's text: Bit, Range16, BinTab, ShiftTab, Binary and Shift. They are the same in both profiles, and
/// name columns by the numbers that namespaces have in the whole text. An error where memory runs out.
pub fn spaces(alloc: Global) -> Result<Items<Space>, AllocError>
    ensures { IfOk result (λ made. map namespace made ≡ Bit.space ∷ Range16.space ∷ BinTab.space ∷ ShiftTab.space ∷ Binary.space ∷ Shift.space ∷ []) }
{
    let mut spaces = machine(alloc, Profile::Small)?.spaces;
    // from behind, so that the places of those before stay
    leave_out(&mut spaces, 12); // Arith
    leave_out(&mut spaces, 9); // Align
    leave_out(&mut spaces, 8); // Out
    leave_out(&mut spaces, 7); // Mem
    leave_out(&mut spaces, 6); // Main
    leave_out(&mut spaces, 5); // Init
    leave_out(&mut spaces, 4); // Rom
    Ok(spaces)
}
