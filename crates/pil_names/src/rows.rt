//! The first namespace with too few or too many rows, and the first public whose row isn't in its namespace.
ghost use Rattle.std.specs.Prelude.{◌≡◌, flat_map, map};
ghost use Rattle.pil_names.specs.Outline.{home_at};
ghost use Rattle.pil_names.specs.Finding.{home_named};
ghost use Rattle.pil_names.specs.Wrongs.{each_item, rows_of, size_place, bad_size, bad_public_row, bad_row_of_draft, bad_rows};
ghost use Rattle.pil_names.specs.Least.{least};
ghost use Rattle.pil_names.specs.Shown.{draft, outlined};
ghost use Rattle.pil_names.specs.Directory.{IsDirectory, IsCountable};

use crate::directory::Directory;
use crate::least::{lesser, unless};
use crate::outline::{Draft, Outline};
use pil_syntax::{Number, Size};

/// The place of a size.
fn size_place(size: &Size) -> u64
    ensures { result ≡ size_place size.now }
{
    match size {
        Size::Number(number) => number.at,
        Size::Constant(name) => name.at,
    }
}

/// A size of no rows or of more than 2^24.
fn bad_size(outline: &Outline, directory: &Directory, size: &Size) -> Option<u64>
    requires { IsDirectory (outlined outline.now) directory.now }
    ensures { result ≡ least (bad_size (outlined outline.now) size.now) }
{
    let rows = directory.rows(outline, size);
    unless(0 < rows && rows <= 1 << 24, size_place(size))
}

/// The rows of the namespace with this number.
pub fn rows_of_home(outline: &Outline, directory: &Directory, home: u32) -> u64
    requires { IsDirectory (outlined outline.now) directory.now }
    ensures { result ≡ rows_of (outlined outline.now) (home_at (outlined outline.now).homes home).size }
{
    match outline.homes.get(home as usize) {
        Some(space) => directory.rows(outline, space.size),
        None => 0,
    }
}

/// A public's row that isn't below the rows of its polynomial's namespace, if that is declared.
fn bad_public_row(
    outline: &Outline,
    directory: &Directory,
    row: Number,
    home: Option<u32>,
) -> Option<u64>
    requires { IsDirectory (outlined outline.now) directory.now }
    ensures { result ≡ least (bad_public_row (outlined outline.now) row home) }
{
    match home {
        Some(named) => unless(row.value < rows_of_home(outline, directory, named), row.at),
        None => None,
    }
}

/// The bad row of an item of the namespace `home`.
fn bad_row_of_draft(outline: &Outline, directory: &Directory, home: u32, item: Draft) -> Option<u64>
    requires { IsDirectory (outlined outline.now) directory.now }
    ensures { result ≡ least (bad_row_of_draft (outlined outline.now) home (draft item.entry)) }
{
    match item {
        Draft::Public {
            name: _,
            column,
            row,
        } => {
            let named = directory.home(outline, home, &column.space);
            bad_public_row(outline, directory, row, named)
        }
        _ => None,
    }
}

/// The first bad row of the items of the namespace `home`.
fn bad_row_in_items(
    outline: &Outline,
    directory: &Directory,
    home: u32,
    items: &[Draft],
) -> Option<u64>
    requires { IsDirectory (outlined outline.now) directory.now }
    ensures { result ≡ least (flat_map (bad_row_of_draft (outlined outline.now) home) (map draft items.now)) }
{
    let mut found = None;
    for item in items {
        let here = bad_row_of_draft(outline, directory, home, *item);
        found = lesser(found, here);
    }
    found
}

/// The first bad row among all items.
fn bad_row_in_homes(outline: &Outline, directory: &Directory) -> Option<u64>
    requires listed { IsDirectory (outlined outline.now) directory.now }
    requires few { IsCountable (outlined outline.now) }
    ensures { result ≡ least (each_item (bad_row_of_draft (outlined outline.now)) (outlined outline.now)) }
{
    let mut found = None;
    let mut number: u32 = 0;
    for space in outline.homes.as_slice() {
        let here = bad_row_in_items(outline, directory, number, space.items.as_slice());
        found = lesser(found, here);
        number += 1;
    }
    found
}

/// The first bad size.
fn bad_size_in_homes(outline: &Outline, directory: &Directory) -> Option<u64>
    requires { IsDirectory (outlined outline.now) directory.now }
    ensures { result ≡ least (flat_map (λ h. bad_size (outlined outline.now) h.size) (outlined outline.now).homes) }
{
    let mut found = None;
    for space in outline.homes.as_slice() {
        let here = bad_size(outline, directory, space.size);
        found = lesser(found, here);
    }
    found
}

/// The least place of a size of no rows or of more than 2^24, or of a public's row that isn't below the
/// rows of its polynomial's namespace.
#[tactic(auto, using(crate::proofs::Passing::joined))]
pub fn least_bad_row(outline: &Outline, directory: &Directory) -> Option<u64>
    requires listed { IsDirectory (outlined outline.now) directory.now }
    requires few { IsCountable (outlined outline.now) }
    ensures { result ≡ least (bad_rows (outlined outline.now)) }
{
    let sizes = bad_size_in_homes(outline, directory);
    let items = bad_row_in_homes(outline, directory);
    lesser(sizes, items)
}
