//! `namespace A(2); pol commit x, y, s;` with `s {x} is {y};` or `s {x} in {y};`, over two instances.
ghost use Rattle.std.specs.Prelude.{◌≡◌, ◌<◌, [], None, map, IfOk};
ghost use Rattle.pil_ast.specs.Term.{commit as commit'};
ghost use Rattle.pil_ast.specs.Tree.{tuples as list_of, line as line_of_item, namespaces};
ghost use Rattle.bus_check.specs.Small.{small_left, small_right, small_is, small_in, small_items, small_text};

use super::*;
use gold::Fe;
use pil_ast::{Columns, Item, List, Pil, Space, column};
use row_check::Broken;
use sqlite_items::Items;
use std::alloc::{AllocError, Global};
use std::test::*;

/// The columns x, y and s of each of two instances, each of two rows.
#[derive(Drop)]
struct Cells {
    cells: [u32; 12],
}

impl Columns for Cells {
    ghost use Rattle.bus_check.specs.Small.{small_columns};

    ghost values = { λ s. small_columns s.cells 2 };

    fn instances(&self, _space: u32) -> u32 {
        2
    }

    fn at(&self, _space: u32, instance: u32, column: u32, row: u32) -> Fe {
        Fe::from(self.cells[(instance * 6 + column * 2 + row) as usize])
    }
}

fn left(alloc: Global) -> Result<List, AllocError>
    ensures { IfOk result (λ list. list_of list ≡ small_left) }
{
    let mut exprs = Items::new(alloc);
    exprs.push(column(0, 0, false))?;
    Ok(List {
        space: 0,
        sel: Some(column(0, 2, false)),
        exprs,
    })
}

fn right(alloc: Global) -> Result<List, AllocError>
    ensures { IfOk result (λ list. list_of list ≡ small_right) }
{
    let mut exprs = Items::new(alloc);
    exprs.push(column(0, 1, false))?;
    Ok(List {
        space: 0,
        sel: None,
        exprs,
    })
}

fn is_item(alloc: Global) -> Result<Item, AllocError>
    ensures { IfOk result (λ item. line_of_item item ≡ small_is) }
{
    let mut lefts = Items::new(alloc);
    lefts.push(left(alloc)?)?;
    let mut rights = Items::new(alloc);
    rights.push(right(alloc)?)?;
    Ok(Item::Bus {
        left: lefts,
        right: rights,
    })
}

fn in_item(alloc: Global) -> Result<Item, AllocError>
    ensures { IfOk result (λ item. line_of_item item ≡ small_in) }
{
    let left = left(alloc)?;
    let right = right(alloc)?;
    Ok(Item::Lookup { left, right })
}

fn commit(alloc: Global) -> Item
    ensures { line_of_item result ≡ commit' [] None }
{
    Item::Commit {
        name: Items::new(alloc),
        len: None,
    }
}

fn items(alloc: Global, item: Item) -> Result<Items<Item>, AllocError>
    ensures { IfOk result (λ items. map line_of_item items ≡ small_items (line_of_item item)) }
{
    let mut items = Items::new(alloc);
    items.push(commit(alloc))?;
    items.push(commit(alloc))?;
    items.push(commit(alloc))?;
    items.push(item)?;
    Ok(items)
}

fn text(alloc: Global, item: Item) -> Result<Pil, AllocError>
    ensures { IfOk result (λ pil. namespaces pil ≡ small_text (line_of_item item)) }
{
    let items = items(alloc, item)?;
    let name = Items::new(alloc);
    let space = Space {
        name,
        rows: 2,
        items,
    };
    let mut spaces = Items::new(alloc);
    spaces.push(space)?;
    Ok(Pil { spaces })
}

fn first_of_is(alloc: Global, cells: &Cells) -> Result<Option<Broken>, AllocError> {
    let item = is_item(alloc)?;
    let pil = text(alloc, item)?;
    first_broken(alloc, &pil, cells)
}

fn first_of_in(alloc: Global, cells: &Cells) -> Result<Option<Broken>, AllocError> {
    let item = in_item(alloc)?;
    let pil = text(alloc, item)?;
    first_broken(alloc, &pil, cells)
}

// The first difference of the `is` over this instance alone.
fn difference_of_one(
    alloc: Global,
    cells: &Cells,
    instance: u32,
) -> Result<Option<Broken>, AllocError>
    requires { instance < 2 }
{
    let item = is_item(alloc)?;
    let pil = text(alloc, item)?;
    let mut run = BusRun::new(alloc, &pil)?;
    run.add(alloc, &pil, cells, 0, instance)?;
    run.finish(alloc, 1)
}

// The first difference of the `is` over both instances, the second one added first.
fn difference_of_both(alloc: Global, cells: &Cells) -> Result<Option<Broken>, AllocError> {
    let item = is_item(alloc)?;
    let pil = text(alloc, item)?;
    let mut run = BusRun::new(alloc, &pil)?;
    run.add(alloc, &pil, cells, 0, 1)?;
    run.add(alloc, &pil, cells, 0, 0)?;
    run.finish(alloc, 1)
}

#[test]
fn counts_of_one_instance(rt: HostRuntime) -> Result<(), Fail> {
    // Instance 0 has 5 and 5 in x and 5 and 6 in y; instance 1 isn't added.
    let cells = Cells {
        cells: [5, 5, 5, 6, 1, 1, 4, 4, 4, 3, 1, 1],
    };
    match difference_of_one(rt.alloc(), &cells, 0)? {
        Some(
            Broken::Counts {
                line,
                tuple,
                left,
                right,
            },
        ) => {
            assert_eq!(rt; line, 1);
            assert_eq!(rt; tuple.as_slice(), [5].as_slice());
            assert_eq!(rt; (left, right), (2, 1));
            Ok(())
        }
        _ => Err("no counts")?,
    }
}

#[test]
fn counts_in_any_order(rt: HostRuntime) -> Result<(), Fail> {
    // Over both instances the sides agree, over either alone they don't.
    let cells = Cells {
        cells: [5, 7, 5, 6, 1, 1, 6, 4, 7, 4, 1, 1],
    };
    assert!(rt; difference_of_both(rt.alloc(), &cells)?.is_none());
    assert!(rt; difference_of_one(rt.alloc(), &cells, 0)?.is_some());
    assert!(rt; difference_of_one(rt.alloc(), &cells, 1)?.is_some());
    Ok(())
}

#[test]
fn unequal_counts(rt: HostRuntime) -> Result<(), Fail> {
    // x is 9 and 5, 5 and 3 (not selected), y is 5 and 9, 9 and 5.
    let cells = Cells {
        cells: [9, 5, 5, 9, 1, 1, 5, 3, 9, 5, 2, 0],
    };
    assert!(rt; first_of_in(rt.alloc(), &cells)?.is_none());
    match first_of_is(rt.alloc(), &cells)? {
        Some(
            Broken::Counts {
                line,
                tuple,
                left,
                right,
            },
        ) => {
            assert_eq!(rt; line, 1);
            assert_eq!(rt; tuple.as_slice(), [9].as_slice());
            assert_eq!(rt; (left, right), (1, 2));
            Ok(())
        }
        _ => Err("no counts")?,
    }
}

#[test]
fn missing_tuple(rt: HostRuntime) -> Result<(), Fail> {
    // x is 7 (not selected) and 5, 4 and 3, y is 5 and 9, 9 and 5.
    let cells = Cells {
        cells: [7, 5, 5, 9, 0, 1, 4, 3, 9, 5, 1, 1],
    };
    match first_of_in(rt.alloc(), &cells)? {
        Some(
            Broken::At {
                line,
                instance,
                row,
            },
        ) => {
            assert_eq!(rt; (line, instance, row), (1, 1, 0));
            Ok(())
        }
        _ => Err("no row")?,
    }
}

#[test]
fn equal_counts(rt: HostRuntime) -> Result<(), Fail> {
    let cells = Cells {
        cells: [9, 5, 5, 9, 1, 1, 5, 9, 9, 5, 2, 3],
    };
    assert!(rt; first_of_is(rt.alloc(), &cells)?.is_none());
    Ok(())
}

// These tuples, in order.
fn sorted(alloc: Global, tuples: &[&[u64]]) -> Result<TupleList, AllocError> {
    let mut list = TupleList::new(alloc);
    for tuple in tuples {
        list.push(alloc, *tuple)?;
    }
    list.sort();
    Ok(list)
}

#[test]
fn widths(rt: HostRuntime) -> Result<(), Fail> {
    let alloc = rt.alloc();
    // One width, and then one more.
    let mut list = sorted(alloc, &[&[5, 1, 2], &[4, 9, 9], &[5, 1, 1]])?;
    assert_eq!(rt; list.len(), 3);
    assert_eq!(rt; list.get(1), Some([5, 1, 1].as_slice()));
    list.append(alloc, sorted(alloc, &[&[5, 1], &[4, 9, 9]])?)?;
    list.sort();
    assert_eq!(rt; list.len(), 5);
    assert_eq!(rt; list.get(2), Some([5, 1].as_slice()));
    assert_eq!(rt; list.get(5), None);
    Ok(())
}
