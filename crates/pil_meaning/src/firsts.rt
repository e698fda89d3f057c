//! The numbers of columns.
ghost use Rattle.std.specs.Prelude.{◌≡◌, ◌<◌, ◌^◌, map, sum_by, All, slice_index_or, None, IfOk};
ghost use Rattle.pil_names.specs.Shown.{draft, home};
ghost use Rattle.pil_meaning.specs.Meaning.{length_or_one, constant_columns as constants_in, committed_columns as committed_in};
ghost use Rattle.pil_meaning.specs.Firsts.{first_of as first_of_item, first_in, firsts_of_items, FewColumns};

use pil_names::{Draft, Outline};
use pil_syntax::{ColumnKind, Number};
use sqlite_items::Items;
use std::alloc::{AllocError, Global};

/// How many columns a declaration of this length declares.
fn columns_of(length: &Option<Number>) -> u32
    requires { length_or_one length.now < 2 ^ 32 }
    ensures { result ≡ length_or_one length.now }
{
    match length {
        Some(number) => number.value as u32,
        None => 1,
    }
}

/// How many constant columns an item declares.
fn constant_columns(item: &Draft) -> u32
    requires { constants_in (draft item.now) < 2 ^ 32 }
    ensures { result ≡ constants_in (draft item.now) }
{
    match item {
        Draft::Column {
            kind: ColumnKind::Constant,
            declaration,
        } => columns_of(&declaration.length),
        _ => 0,
    }
}

/// How many committed columns an item declares.
fn committed_columns(item: &Draft) -> u32
    requires { committed_in (draft item.now) < 2 ^ 32 }
    ensures { result ≡ committed_in (draft item.now) }
{
    match item {
        Draft::Column {
            kind: ColumnKind::Commit,
            declaration,
        } => columns_of(&declaration.length),
        _ => 0,
    }
}

/// How many constant columns the items declare.
fn constant_count(items: &[Draft]) -> u32
    requires { sum_by (λ item. constants_in (draft item)) items.now < 2 ^ 32 }
    ensures { result ≡ sum_by (λ item. constants_in (draft item)) items.now }
{
    let mut columns = 0;
    for item in items {
        columns += constant_columns(item);
    }
    columns
}

/// The number of the item's first column, behind so many constant columns and committed ones.
fn first_of(item: &Draft, constants: u32, committed: u32) -> Option<u32>
    ensures { result ≡ first_of_item constants committed (draft item.now) }
{
    match item {
        Draft::Column {
            kind: ColumnKind::Constant,
            declaration: _,
        } => Some(constants),
        Draft::Column {
            kind: ColumnKind::Commit,
            declaration: _,
        } => Some(committed),
        _ => None,
    }
}

/// The number of each item's first column.
fn firsts_of_home(alloc: Global, items: &[Draft]) -> Result<Items<Option<u32>>, AllocError>
    requires { FewColumns (map draft items.now) }
    ensures { IfOk result (λ firsts. firsts ≡ firsts_of_items (map draft items.now)) }
{
    let mut firsts = Items::new(alloc);
    let mut constants = 0;
    let mut committed = constant_count(items);
    for item in items {
        firsts.push(first_of(item, constants, committed))?;
        constants += constant_columns(item);
        committed += committed_columns(item);
    }
    Ok(firsts)
}

/// The number of the first column of each item of each namespace.
pub fn first_columns(
    alloc: Global,
    outline: &Outline,
) -> Result<Items<Items<Option<u32>>>, AllocError>
    requires { All (λ h. FewColumns (home h).items) outline.now.homes }
    ensures { IfOk result (λ firsts. firsts ≡ map (λ h. firsts_of_items (home h).items) outline.now.homes) }
{
    let mut firsts = Items::new(alloc);
    for home in outline.homes.as_slice() {
        firsts.push(firsts_of_home(alloc, home.items.as_slice())?)?;
    }
    Ok(firsts)
}

/// The number of the first column of an item, where it is there and declares columns.
fn first_of_number(firsts: &Items<Option<u32>>, item: u32) -> Option<u32>
    ensures { result ≡ slice_index_or firsts.now item None }
{
    match firsts.get(item as usize) {
        Some(first) => *first,
        None => None,
    }
}

/// The number of the first column of an item of a namespace, where it is there and declares columns.
pub fn first_column(firsts: &[Items<Option<u32>>], space: u32, item: u32) -> Option<u32>
    ensures { result ≡ first_in firsts.now space item }
{
    match firsts.get(space as usize) {
        Some(items) => first_of_number(items, item),
        None => None,
    }
}
