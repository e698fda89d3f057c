//! The tree of an outline.
ghost use Rattle.std.specs.Prelude.{◌≡◌, IfOk};
ghost use Rattle.pil_ast.specs.Tree.{namespace, namespaces};
ghost use Rattle.pil_names.specs.Shown.{outlined, home as home_of};
ghost use Rattle.pil_names.specs.Directory.{IsDirectory};
ghost use Rattle.pil_meaning.specs.Meaning.{meaning, read_home as home_read};
ghost use Rattle.pil_meaning.specs.Firsts.{firsts_of};
ghost use Rattle.pil_meaning.specs.Fitting.{Fits, FitsSpace};

use crate::firsts::first_columns;
use crate::items::read_items;
use pil_ast::{Pil, Space};
use pil_names::{Directory, Home, Outline};
use sqlite_items::Items;
use std::alloc::{AllocError, Global};

/// The namespace with this number.
fn read_home(
    alloc: Global,
    outline: &Outline,
    directory: &Directory,
    firsts: &[Items<Option<u32>>],
    number: u32,
    home: &Home,
) -> Result<Space, AllocError>
    requires listed { IsDirectory (outlined outline.now) directory.now }
    requires firsts { firsts.now ≡ firsts_of (outlined outline.now) }
    requires fits { FitsSpace (home_read (outlined outline.now) number (home_of home.now)) }
    ensures { IfOk result (λ space. namespace space ≡ home_read (outlined outline.now) number (home_of home.now)) }
{
    let name = Items::from_slice(alloc, home.name.name.bytes())?;
    let rows = directory.rows(outline, home.size) as u32;
    let drafts = home.items.as_slice();
    let items = read_items(alloc, outline, directory, firsts, number, drafts)?;
    Ok(Space { name, rows, items })
}

/// The tree of an outline: what its text means. It takes time in proportion to the text's length, but
/// for the search of names.
pub fn read_meaning(
    alloc: Global,
    outline: &Outline,
    directory: &Directory,
) -> Result<Pil, AllocError>
    requires listed { IsDirectory (outlined outline.now) directory.now }
    requires fits { Fits (meaning (outlined outline.now)) }
    ensures { IfOk result (λ pil. namespaces pil ≡ meaning (outlined outline.now)) }
{
    let firsts = first_columns(alloc, outline)?;
    let mut spaces = Items::new(alloc);
    let mut number: u32 = 0;
    for home in outline.homes.as_slice() {
        let space = read_home(alloc, outline, directory, firsts.as_slice(), number, home)?;
        spaces.push(space)?;
        number += 1;
    }
    Ok(Pil { spaces })
}
