//! The tree of an outline that breaks no rule.
ghost use Rattle.std.specs.Prelude.{◌≡◌, IfOk, IfErr};
ghost use Rattle.pil_ast.specs.Tree.{namespaces};
ghost use Rattle.pil_names.specs.Directory.{IsDirectory, IsCountable};
ghost use Rattle.pil_names.specs.Shown.{outlined};
ghost use Rattle.pil_meaning.specs.Meaning.{meaning};
ghost use Rattle.pil_text.specs.Refusal.{Breaks, BreaksOrClears, HasPlace, IsClear, IsReadable, UnlessMemory};

use crate::cycles::least_cyclic;
use crate::error::{PilErr, PilKind};
use crate::rules::{check_names, refusal};
use pil_ast::Pil;
use pil_cycles::without_cycle_are_ranked;
use pil_meaning::{least_double_mark, read_meaning};
use pil_names::{Directory, Outline, least_is_least, read_directory};
use std::alloc::Global;

/// Refuses a tree by the first of its rules of cycles and marks that it breaks, at its least place.
fn check_tree(
    alloc: Global,
    outline: &Outline,
    directory: &Directory,
    pil: &Pil,
) -> Result<(), PilErr>
    requires readable { IsReadable (outlined outline.now) }
    requires listed { IsDirectory (outlined outline.now) directory.now }
    requires meant { namespaces pil.now ≡ meaning (outlined outline.now) }
    requires named { IsClear 7 (outlined outline.now) }
    ensures told { BreaksOrClears (outlined outline.now) 9 result }
    ensures place { IfErr result HasPlace }
{
    least_is_least();
    without_cycle_are_ranked();
    if let Some(at) = least_cyclic(alloc, outline, pil)? {
        return Err(refusal(PilKind::CyclicPol, at));
    }
    if let Some(at) = least_double_mark(alloc, outline, directory, pil)? {
        return Err(refusal(PilKind::DoubleMark, at));
    }
    Ok(())
}

/// The tree that an outline means, or the first rule that it breaks, at its least place.
pub fn resolve(alloc: Global, outline: &Outline) -> Result<Pil, PilErr>
    requires { IsReadable (outlined outline.now) }
    ensures meant { IfOk result (λ pil. namespaces pil ≡ meaning (outlined outline.now)) }
    ensures clear { IfOk result (λ _. IsClear 9 (outlined outline.now)) }
    ensures refused { IfErr result (λ e. UnlessMemory e.kind (Breaks (outlined outline.now) e)) }
    ensures place { IfErr result HasPlace }
{
    let (directory, repeated) = read_directory(alloc, outline)?;
    check_names(outline, &directory, repeated)?;
    let pil = read_meaning(alloc, outline, &directory)?;
    check_tree(alloc, outline, &directory, &pil)?;
    Ok(pil)
}
