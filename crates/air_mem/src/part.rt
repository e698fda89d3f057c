//! The namespaces' part of the machine's text.
ghost use Rattle.std.specs.Prelude.{◌≡◌, [], ◌∷◌, IfOk, map};
ghost use Rattle.pil_ast.specs.Tree.{namespace};
ghost use Rattle.machine_text.specs.Init;
ghost use Rattle.machine_text.specs.Mem;
ghost use Rattle.machine_text.specs.Out;

use gold::Profile;
use machine_text::{machine, take_out};
use pil_ast::Space;
use sqlite_items::Items;
use std::alloc::{AllocError, Global};

/// The namespaces Init, Mem and Out, which are the same in every profile, with their numbers in the whole
/// text.
pub fn spaces(alloc: Global) -> Result<Items<Space>, AllocError>
    ensures { IfOk result (λ made. map namespace made ≡ Init.space ∷ Mem.space ∷ Out.space ∷ []) }
{
    let mut spaces = machine(alloc, Profile::Small)?.spaces;
    let out = take_out(&mut spaces, 8);
    let mem = take_out(&mut spaces, 7);
    let init = take_out(&mut spaces, 5);
    let mut part = Items::new(alloc);
    part.push(init)?;
    part.push(mem)?;
    part.push(out)?;
    Ok(part)
}
