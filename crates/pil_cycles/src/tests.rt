//! Small namespaces whose cycles are known.
ghost use Rattle.std.specs.Prelude.{◌≡◌, ◌<◌, map, length, IfOk};
ghost use Rattle.pil_ast.specs.Tree.{term, line};
ghost use Rattle.pil_ast.specs.Sound.{NamesOnly};
ghost use Rattle.pil_ast.specs.Order.{NamesInside};

use crate::on_cycles;
use pil_ast::{Expr, Item, add, inter, public};
use sqlite_items::Items;
use std::alloc::{AllocError, Global};
use std::test::Fail;

/// A sum of the intermediates to which an edge leads from the item.
fn sum_of(alloc: Global, item: u32, count: u32, edges: &[(u32, u32)]) -> Result<Expr, AllocError>
    ensures { IfOk result (λ e. NamesOnly (λ k. k < count) (term e)) }
{
    let mut sum = public(0);
    for (from, to) in edges {
        if *from == item && *to < count {
            sum = add(alloc, sum, inter(0, *to, false))?;
        }
    }
    Ok(sum)
}

/// As many intermediates, each the sum of those to which an edge leads from it.
fn namespace(alloc: Global, count: u32, edges: &[(u32, u32)]) -> Result<Items<Item>, AllocError>
    ensures long { IfOk result (λ items. length items ≡ count) }
    ensures inside { IfOk result (λ items. NamesInside (map line items)) }
{
    let mut items = Items::new(alloc);
    for item in 0..count {
        items.push(Item::Inter {
            name: Items::new(alloc),
            value: sum_of(alloc, item, count, edges)?,
        })?;
    }
    Ok(items)
}

/// The least item that depends on itself.
fn least(alloc: Global, count: u32, edges: &[(u32, u32)]) -> Result<Option<u32>, AllocError> {
    let items = namespace(alloc, count, edges)?;
    let flags = on_cycles(alloc, items.as_slice())?;
    Ok(flags.iter().position(|flag| *flag).map(|item| item as u32))
}

/// An edge from each item to the next.
fn chain(alloc: Global, count: u32) -> Result<Vec<(u32, u32)>, AllocError> {
    let mut edges = Vec::new(alloc);
    for item in 1..count {
        edges.push((item - 1, item))?;
    }
    Ok(edges)
}

#[test]
fn finds_no_cycle(rt: HostRuntime) -> Result<(), Fail> {
    assert_eq!(rt; least(rt.alloc(), 0, &[])?, None);
    assert_eq!(rt; least(rt.alloc(), 3, &[(0, 1), (1, 2), (0, 2)])?, None);
    assert_eq!(rt; least(rt.alloc(), 3, &[(2, 1), (1, 0), (2, 0)])?, None);
    Ok(())
}

#[test]
fn finds_an_item_that_names_itself(rt: HostRuntime) -> Result<(), Fail> {
    assert_eq!(rt; least(rt.alloc(), 3, &[(0, 1), (1, 1), (1, 2)])?, Some(1));
    assert_eq!(rt; least(rt.alloc(), 1, &[(0, 0)])?, Some(0));
    Ok(())
}

#[test]
fn finds_the_least_of_two_cycles(rt: HostRuntime) -> Result<(), Fail> {
    let edges = [(0, 5), (5, 6), (6, 5), (1, 3), (3, 2), (2, 1)];
    assert_eq!(rt; least(rt.alloc(), 7, &edges)?, Some(1));
    let edges = [(0, 5), (5, 6), (6, 4), (4, 5), (6, 2), (2, 2)];
    assert_eq!(rt; least(rt.alloc(), 7, &edges)?, Some(2));
    Ok(())
}

#[test]
fn leaves_out_what_stands_between_two_cycles(rt: HostRuntime) -> Result<(), Fail> {
    let edges = [(0, 5), (4, 5), (5, 4), (4, 3), (3, 7), (7, 8), (8, 7)];
    assert_eq!(rt; least(rt.alloc(), 9, &edges)?, Some(4));
    Ok(())
}

#[test]
fn follows_a_long_chain(rt: HostRuntime) -> Result<(), Fail> {
    let mut edges = chain(rt.alloc(), 1000)?;
    assert_eq!(rt; least(rt.alloc(), 1000, &edges)?, None);
    edges.push((999, 400))?;
    assert_eq!(rt; least(rt.alloc(), 1000, &edges)?, Some(400));
    Ok(())
}
