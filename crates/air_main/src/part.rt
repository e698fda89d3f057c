//! The namespaces' part of the machine's text.
ghost use Rattle.std.specs.Prelude.{◌≡◌, [], ◌∷◌, IfOk, map};
ghost use Rattle.pil_ast.specs.Tree.{namespace};
ghost use Rattle.machine_text.specs.Machine.{main_rows};
ghost use Rattle.machine_text.specs.Main;
ghost use Rattle.machine_text.specs.Rom;

use gold::Profile;
use machine_text::{machine, take_out};
use pil_ast::Space;
use sqlite_items::Items;
use std::alloc::{AllocError, Global};

/// The namespaces Rom and Main, with their numbers in the whole text. Main has the profile's number of rows.
pub fn spaces(alloc: Global, profile: Profile) -> Result<Items<Space>, AllocError>
    ensures { IfOk result (λ made. map namespace made ≡ Rom.space ∷ Main.space (main_rows profile) ∷ []) }
{
    let mut spaces = machine(alloc, profile)?.spaces;
    let main = take_out(&mut spaces, 6);
    let rom = take_out(&mut spaces, 4);
    let mut part = Items::new(alloc);
    part.push(rom)?;
    part.push(main)?;
    Ok(part)
}
