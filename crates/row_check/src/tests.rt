//! `namespace A(3); pol commit x; x' = x + 1;` over one instance.
ghost use Rattle.std.specs.Prelude.{◌≡◌, [], None, map, IfOk};
ghost use Rattle.pil_ast.specs.Term.{commit as commit'};
ghost use Rattle.pil_ast.specs.Tree.{line as line_of_item, namespaces};
ghost use Rattle.row_check.specs.Small.{small_line, small_items, small_text};

use super::*;
use gold::Fe;
use pil_ast::{Columns, Item, Pil, Space, add, column, number};
use sqlite_items::Items;
use std::alloc::{AllocError, Global};
use std::test::*;

/// The column x of one instance of three rows.
#[derive(Drop)]
struct Cells {
    cells: [u32; 3],
}

impl Columns for Cells {
    ghost use Rattle.row_check.specs.Small.{small_columns};

    ghost values = { λ s. small_columns s.cells };

    fn instances(&self, _space: u32) -> u32 {
        1
    }

    fn at(&self, _space: u32, _instance: u32, _column: u32, row: u32) -> Fe {
        Fe::from(self.cells[row as usize])
    }
}

fn identity(alloc: Global) -> Result<Item, AllocError>
    ensures { IfOk result (λ item. line_of_item item ≡ small_line) }
{
    Ok(Item::Identity {
        space: 0,
        left: column(0, 0, true),
        right: add(alloc, column(0, 0, false), number(Fe::ONE))?,
    })
}

fn commit(alloc: Global) -> Item
    ensures { line_of_item result ≡ commit' [] None }
{
    Item::Commit {
        name: Items::new(alloc),
        len: None,
    }
}

fn items(alloc: Global) -> Result<Items<Item>, AllocError>
    ensures { IfOk result (λ items. map line_of_item items ≡ small_items) }
{
    let mut items = Items::new(alloc);
    items.push(commit(alloc))?;
    items.push(identity(alloc)?)?;
    Ok(items)
}

fn text(alloc: Global) -> Result<Pil, AllocError>
    ensures { IfOk result (λ pil. namespaces pil ≡ small_text) }
{
    let items = items(alloc)?;
    let name = Items::new(alloc);
    let space = Space {
        name,
        rows: 3,
        items,
    };
    let mut spaces = Items::new(alloc);
    spaces.push(space)?;
    Ok(Pil { spaces })
}

fn first_of_table(alloc: Global, cells: &Cells) -> Result<Option<Broken>, AllocError> {
    let pil = text(alloc)?;
    check_table(alloc, &pil, cells, 1, 0)
}

/// The row of a place in line 1 and instance 0.
fn row_of(broken: Option<Broken>) -> Option<u32> {
    match broken {
        Some(
            Broken::At {
                line: 1,
                instance: 0,
                row,
            },
        ) => Some(row),
        _ => None,
    }
}

#[test]
fn broken_at_last_row(rt: HostRuntime) -> Result<(), Fail> {
    let cells = Cells { cells: [0, 1, 2] };
    assert_eq!(rt; row_of(first_of_table(rt.alloc(), &cells)?), Some(2));
    Ok(())
}

#[test]
fn broken_at_first_row(rt: HostRuntime) -> Result<(), Fail> {
    let cells = Cells { cells: [0, 0, 2] };
    assert_eq!(rt; row_of(first_of_table(rt.alloc(), &cells)?), Some(0));
    Ok(())
}
