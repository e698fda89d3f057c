//! The namespace as it stands in the machine's text.
ghost use Rattle.std.specs.Prelude.{◌≡◌, [], ◌∷◌, IfOk, map};
ghost use Rattle.pil_ast.specs.Tree.{namespace};
ghost use Rattle.machine_text.specs.Arith;

use gold::Profile;
use machine_text::machine;
use pil_ast::Space;
use sqlite_items::Items;
use std::alloc::{AllocError, Global};

/// The namespace Arith, which is the same in every profile, with the numbers of the whole text.
pub fn spaces(alloc: Global) -> Result<Items<Space>, AllocError>
    ensures { IfOk result (λ made. map namespace made ≡ Arith.space ∷ []) }
{
    let mut spaces = machine(alloc, Profile::Small)?.spaces;
    let mut part = Items::new(alloc);
    part.push(spaces.remove(12))?;
    Ok(part)
}
