//! All instances in turn.
ghost use Rattle.std.specs.Prelude.{◌≡◌, ◌≢◌, ◌<◌, ℕ, length, IfOk, OnOk, MatchOption};
ghost use Rattle.pil_ast.specs.Tree.{namespaces};
ghost use Rattle.pil_ast.specs.Columns.{Fits};
ghost use Rattle.pil_ast.specs.Sound.{IsSound};
ghost use Rattle.pil_ast.specs.Holds.{AllHold};
ghost use Rattle.row_check.specs.Breaks.{IsFirstBroken};
ghost use Rattle.pil_program.specs.Publics.{NoneIsNamed};
ghost use Rattle.pil_checker.specs.Standing.{IsBuilt, StandsFor, added};

use crate::checker::Checker;
use crate::sizes::suits_checker;
use bus_check::first_broken as line_by_line;
use pil_ast::{Columns, Pil};
use pil_program::{InstanceColumns, names_no_public};
use row_check::Broken;
use std::alloc::{AllocError, Global};

/// Adds all instances of a namespace, of which none was added.
fn add_space<C: InstanceColumns>(
    checker: &mut Checker,
    alloc: Global,
    pil: &Pil,
    columns: &C,
    space: u32,
) -> Result<(), AllocError>
    requires sound { IsSound (namespaces pil.now) }
    requires fits { Fits (namespaces pil.now) (C.values columns.now) }
    requires space { space < (C.values columns.now).spaces }
    requires built { IsBuilt (namespaces pil.now) checker.old }
    requires stands { StandsFor (namespaces pil.now) (C.values columns.now) checker.old }
    requires none { added checker.old space ≡ 0 }
    ensures built { OnOk result (IsBuilt (namespaces pil.now) checker.new) }
    ensures stands { OnOk result (StandsFor (namespaces pil.now) (C.values columns.now) checker.new) }
    ensures here { OnOk result (added checker.new space ≡ (C.values columns.now).instances space) }
    ensures elsewhere { OnOk result ((t : ℕ) → t ≢ space → added checker.new t ≡ added checker.old t) }
{
    for instance in 0..columns.instances(space) {
        checker.add(alloc, pil, columns, space, instance)?;
    }
    Ok(())
}

/// Checks all lines of a text that names no public.
fn first_of_plain<C: InstanceColumns>(
    alloc: Global,
    pil: &Pil,
    columns: &C,
) -> Result<Option<Broken>, AllocError>
    requires sound { IsSound (namespaces pil.now) }
    requires unnamed { NoneIsNamed (namespaces pil.now) }
    requires fits { Fits (namespaces pil.now) (C.values columns.now) }
    ensures { IfOk result (λ found. MatchOption found (AllHold (namespaces pil.now) (C.values columns.now)) (λ broken. IsFirstBroken (namespaces pil.now) (C.values columns.now) broken)) }
{
    let mut checker = Checker::new(alloc, pil, columns)?;
    for space in 0..pil.spaces.len() as u32 {
        add_space(&mut checker, alloc, pil, columns, space)?;
    }
    checker.finish(alloc, pil)
}

/// Checks all lines of a text: None exactly where each holds, else where the first broken one is broken
/// (docs/PIL.md, "The first broken line"). Where the text names a public, or a checker would keep too much,
/// each line is checked by itself.
pub fn first_broken<C: InstanceColumns>(
    alloc: Global,
    pil: &Pil,
    columns: &C,
) -> Result<Option<Broken>, AllocError>
    requires sound { IsSound (namespaces pil.now) }
    requires fits { Fits (namespaces pil.now) (C.values columns.now) }
    ensures { IfOk result (λ found. MatchOption found (AllHold (namespaces pil.now) (C.values columns.now)) (λ broken. IsFirstBroken (namespaces pil.now) (C.values columns.now) broken)) }
{
    if names_no_public(pil) && suits_checker(pil, columns) {
        first_of_plain(alloc, pil, columns)
    } else {
        line_by_line(alloc, pil, columns)
    }
}
