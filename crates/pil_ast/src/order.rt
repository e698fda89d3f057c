//! An order in which the intermediates of a namespace can be evaluated.
ghost use Rattle.std.specs.Prelude.{◌≡◌, ◌≢◌, ◌<◌, [], map, length, All, Contains, slice_get, IfOk, OnOk, IsTrue, ◌↔◌, ◌^◌, MatchOption};
ghost use Rattle.pil_ast.specs.Tree.{term, line};
ghost use Rattle.pil_ast.specs.Term.{item_at, inter_at};
ghost use Rattle.pil_ast.specs.Sound.{NamesOnly, Names, IsInter, IsAcyclic};
ghost use Rattle.pil_ast.specs.Order.{IsWhole, IsSearch, IsDone, NamesInside, KeepsFound};

use crate::items::expression;
use crate::tree::{Expr, Item};
use sqlite_items::Items;
use std::alloc::{AllocError, Global};

/// How far the search for an order is with an item.
#[derive(Clone, Copy)]
pub enum State {
    New,
    Open,
    Done,
}

fn is_done(states: &[State], item: u32) -> bool
    ensures { IsTrue result ↔ IsDone states.now item }
{
    matches!(states.get(item as usize), Some(State::Done))
}

fn is_new(states: &[State], item: u32) -> bool
    ensures { IsTrue result ↔ (slice_get states.now item ≡ Some State.New) }
{
    matches!(states.get(item as usize), Some(State::New))
}

/// An intermediate that the expression names and that isn't done.
fn open_in(expr: &Expr, states: &[State]) -> Option<u32>
    requires { NamesOnly (λ k. k < length states.now) (term expr.now) }
    ensures { MatchOption result (NamesOnly (IsDone states.now) (term expr.now)) (λ k. Names (term expr.now) k × (k < length states.now) × ¬ IsDone states.now k) }
{
    match expr {
        Expr::Number(_) => None,
        Expr::Column { .. } => None,
        Expr::Public(_) => None,
        Expr::Inter {
            space: _,
            item,
            next: _,
        } => {
            if is_done(states, *item) {
                None
            } else {
                Some(*item)
            }
        }
        Expr::Neg(a) => open_in(a.get(), states),
        Expr::Add(a, b) => match open_in(a.get(), states) {
            Some(item) => Some(item),
            None => open_in(b.get(), states),
        },
        Expr::Sub(a, b) => match open_in(a.get(), states) {
            Some(item) => Some(item),
            None => open_in(b.get(), states),
        },
        Expr::Mul(a, b) => match open_in(a.get(), states) {
            Some(item) => Some(item),
            None => open_in(b.get(), states),
        },
    }
}

/// An intermediate that the item's expression names and that isn't done.
fn open_in_item(items: &[Item], item: u32, states: &[State]) -> Option<u32>
    requires { NamesOnly (λ k. k < length states.now) (inter_at (map line items.now) item) }
    ensures { MatchOption result (NamesOnly (IsDone states.now) (inter_at (map line items.now) item)) (λ k. Names (inter_at (map line items.now) item) k × (k < length states.now) × ¬ IsDone states.now k) }
{
    match expression(items, item) {
        Some(value) => open_in(value, states),
        None => None,
    }
}

/// Puts an intermediate at the order's end, after all that it depends on, where they aren't there yet.
fn visit(
    alloc: Global,
    items: &[Item],
    root: u32,
    states: &mut [State],
    order: &mut Items<u32>,
) -> Result<(), AllocError>
    requires root { root < length items.now }
    requires inside { NamesInside (map line items.now) }
    requires acyclic { IsAcyclic (map line items.now) }
    requires search { IsSearch (map line items.now) states.old [] order.old }
    ensures search { OnOk result (IsSearch (map line items.now) states.new [] order.new) }
    ensures keeps { OnOk result (KeepsFound states.old states.new) }
    ensures found { OnOk result (IsInter (item_at (map line items.now) root) → slice_get states.new root ≢ Some State.New) }
{
    if expression(items, root).is_none() || !is_new(states, root) {
        return Ok(());
    }
    let mut stack = Items::new(alloc);
    states[root as usize] = State::Open;
    stack.push(root)?;
    while let Some(item) = stack.pop() {
        match open_in_item(items, item, states) {
            Some(named) => {
                states[named as usize] = State::Open;
                stack.push(item)?;
                stack.push(named)?;
            }
            None => {
                states[item as usize] = State::Done;
                order.push(item)?;
            }
        }
    }
    Ok(())
}

/// Visits each item in turn.
fn visit_all(
    alloc: Global,
    items: &[Item],
    states: &mut [State],
    order: &mut Items<u32>,
) -> Result<(), AllocError>
    requires few { length items.now < 2 ^ 32 }
    requires inside { NamesInside (map line items.now) }
    requires acyclic { IsAcyclic (map line items.now) }
    requires search { IsSearch (map line items.now) states.old [] order.old }
    ensures { OnOk result (IsWhole (map line items.now) order.new) }
{
    for root in 0..items.len() as u32 {
        visit(alloc, items, root, states, order)?;
    }
    Ok(())
}

/// The intermediates of a namespace in an order in which each stands after those that it names. It
/// takes time in proportion to the size of their expressions.
pub fn evaluation_order(alloc: Global, items: &[Item]) -> Result<Items<u32>, AllocError>
    requires few { length items.now < 2 ^ 32 }
    requires inside { NamesInside (map line items.now) }
    requires acyclic { IsAcyclic (map line items.now) }
    ensures { IfOk result (λ order. IsWhole (map line items.now) order) }
{
    let mut states = vec![in alloc; State::New; items.len()]?;
    let mut order = Items::new(alloc);
    visit_all(alloc, items, &mut states, &mut order)?;
    Ok(order)
}
