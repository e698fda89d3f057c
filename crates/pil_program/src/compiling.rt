//! A namespace's expressions as steps.
ghost use Rattle.std.specs.Prelude.{◌≡◌, ◌<◌, true, false, map, length, IfOk, OnOk, MatchBool};
ghost use Rattle.pil_ast.specs.Tree.{term, line, namespaces};
ghost use Rattle.pil_ast.specs.Term.{space_at, inter_at};
ghost use Rattle.pil_ast.specs.Sound.{IsSound, IsTerm};
ghost use Rattle.pil_ast.specs.Value.{later};
ghost use Rattle.pil_ast.specs.Turns.{IsPlan};
ghost use Rattle.pil_program.specs.Publics.{NoPublic, NoneIsNamed};
ghost use Rattle.pil_program.specs.Program.{Places, IsOver, IsReady, NotesStep, IsProgramOf};

use crate::nodes::{Node, Nodes};
use gold::Fe;
use pil_ast::{Expr, Item, Pil, Turn, expression, plan};
use sqlite_items::Items;
use std::alloc::{AllocError, Global};

/// Puts the steps of an expression at the end, at this row or at the next, and says which is its value.
fn place(
    pil: &Pil,
    space: u32,
    nodes: &mut Nodes,
    expr: &Expr,
    ahead: bool,
    here: &[usize],
    next: &[usize],
) -> Result<usize, AllocError>
    requires over { IsOver (namespaces pil.now) space ahead (term expr.now) }
    requires ready { IsReady (namespaces pil.now) space nodes.old ahead here.now next.now (term expr.now) }
    ensures { IfOk result (λ k. Places (namespaces pil.now) space nodes.old nodes.new (later 0 ahead) (term expr.now) k) }
{
    match expr {
        Expr::Number(n) => nodes.place(Node::Number(*n)),
        Expr::Column {
            space: _,
            column,
            next,
        } => nodes.place(Node::Column {
            column: *column,
            next: ahead || *next,
        }),
        Expr::Inter {
            space: _,
            item,
            next: marked,
        } => {
            let steps = if ahead || *marked { next } else { here };
            Ok(steps[*item as usize])
        }
        Expr::Public(_) => nodes.place(Node::Number(Fe::ZERO)),
        Expr::Neg(a) => {
            let a = place(pil, space, nodes, a.get(), ahead, here, next)?;
            nodes.place(Node::Neg(a))
        }
        Expr::Add(a, b) => {
            let a = place(pil, space, nodes, a.get(), ahead, here, next)?;
            let b = place(pil, space, nodes, b.get(), ahead, here, next)?;
            nodes.place(Node::Add(a, b))
        }
        Expr::Sub(a, b) => {
            let a = place(pil, space, nodes, a.get(), ahead, here, next)?;
            let b = place(pil, space, nodes, b.get(), ahead, here, next)?;
            nodes.place(Node::Sub(a, b))
        }
        Expr::Mul(a, b) => {
            let a = place(pil, space, nodes, a.get(), ahead, here, next)?;
            let b = place(pil, space, nodes, b.get(), ahead, here, next)?;
            nodes.place(Node::Mul(a, b))
        }
    }
}

/// Puts the steps of an item's expression at the end, and says which is its value; of 0, where it has
/// none.
fn place_item(
    pil: &Pil,
    space: u32,
    nodes: &mut Nodes,
    items: &[Item],
    item: u32,
    ahead: bool,
    here: &[usize],
    next: &[usize],
) -> Result<usize, AllocError>
    requires over { IsOver (namespaces pil.now) space ahead (inter_at (map line items.now) item) }
    requires ready { IsReady (namespaces pil.now) space nodes.old ahead here.now next.now (inter_at (map line items.now) item) }
    ensures { IfOk result (λ k. Places (namespaces pil.now) space nodes.old nodes.new (later 0 ahead) (inter_at (map line items.now) item) k) }
{
    match expression(items, item) {
        Some(expr) => place(pil, space, nodes, expr, ahead, here, next),
        None => nodes.place(Node::Number(Fe::ZERO)),
    }
}

/// Puts the steps of an item at the end, and notes which is its value.
fn place_here(
    pil: &Pil,
    space: u32,
    nodes: &mut Nodes,
    items: &[Item],
    item: u32,
    here: &mut Items<usize>,
    next: &[usize],
) -> Result<(), AllocError>
    requires over { IsOver (namespaces pil.now) space false (inter_at (map line items.now) item) }
    requires ready { IsReady (namespaces pil.now) space nodes.old false here.old next.now (inter_at (map line items.now) item) }
    requires room { item < length here.old }
    ensures { OnOk result (NotesStep (namespaces pil.now) space nodes.old nodes.new 0 (inter_at (map line items.now) item) item here.old here.new) }
{
    let step = place_item(pil, space, nodes, items, item, false, here.as_slice(), next)?;
    here.set(item as usize, step);
    Ok(())
}

/// The same at the next row, where the item has a value there.
fn place_next(
    pil: &Pil,
    space: u32,
    nodes: &mut Nodes,
    items: &[Item],
    turn: &Turn,
    next: &mut Items<usize>,
) -> Result<(), AllocError>
    requires over { turn.now.ahead ≡ true → IsOver (namespaces pil.now) space true (inter_at (map line items.now) turn.now.item) }
    requires ready { turn.now.ahead ≡ true → IsReady (namespaces pil.now) space nodes.old true next.old next.old (inter_at (map line items.now) turn.now.item) }
    requires room { turn.now.item < length next.old }
    ensures { OnOk result (MatchBool turn.now.ahead (NotesStep (namespaces pil.now) space nodes.old nodes.new 1 (inter_at (map line items.now) turn.now.item) turn.now.item next.old next.new) ((nodes.new ≡ nodes.old) × (next.new ≡ next.old))) }
{
    if turn.ahead {
        let step = place_item(
            pil,
            space,
            nodes,
            items,
            turn.item,
            true,
            next.as_slice(),
            next.as_slice(),
        )?;
        next.set(turn.item as usize, step);
    }
    Ok(())
}

/// Puts the steps of a namespace's intermediates at the end, of which there are none yet.
fn place_turns(
    pil: &Pil,
    space: u32,
    items: &[Item],
    turns: &[Turn],
    nodes: &mut Nodes,
    here: &mut Items<usize>,
    next: &mut Items<usize>,
) -> Result<(), AllocError>
    requires sound { IsSound (namespaces pil.now) }
    requires unnamed { NoneIsNamed (namespaces pil.now) }
    requires space { space < length (namespaces pil.now) }
    requires items { map line items.now ≡ (space_at (namespaces pil.now) space).items }
    requires plan { IsPlan (space_at (namespaces pil.now) space).items turns.now }
    requires empty { length nodes.old ≡ 0 }
    requires here { length here.old ≡ length (space_at (namespaces pil.now) space).items }
    requires next { length next.old ≡ length (space_at (namespaces pil.now) space).items }
    ensures { OnOk result (IsProgramOf (namespaces pil.now) space nodes.new here.new next.new) }
{
    for turn in turns {
        place_here(pil, space, nodes, items, turn.item, here, next.as_slice())?;
        place_next(pil, space, nodes, items, turn, next)?;
    }
    Ok(())
}

/// The steps of a namespace's expressions: each intermediate has one, and once more at the next row
/// where it has a value there.
#[derive(Drop)]
pub struct Program {
    nodes: Nodes,
    /// The intermediates' steps at a row and at the next, by item.
    here: Items<usize>,
    next: Items<usize>,
}

impl Program {
    /// The steps of a namespace's intermediates.
    pub fn new(alloc: Global, pil: &Pil, space: u32) -> Result<Program, AllocError>
        requires sound { IsSound (namespaces pil.now) }
        requires unnamed { NoneIsNamed (namespaces pil.now) }
        requires space { space < length (namespaces pil.now) }
        ensures { IfOk result (λ p. IsProgramOf (namespaces pil.now) space p.nodes p.here p.next) }
    {
        let items = pil.spaces.as_slice()[space as usize].items.as_slice();
        let turns = plan(alloc, items)?;
        let mut nodes = Nodes::new(alloc)?;
        let mut here = Items::from_vec(vec![in alloc; 0usize; items.len()]?);
        let mut next = Items::from_vec(vec![in alloc; 0usize; items.len()]?);
        place_turns(
            pil,
            space,
            items,
            turns.as_slice(),
            &mut nodes,
            &mut here,
            &mut next,
        )?;
        Ok(Program { nodes, here, next })
    }

    /// The steps in order.
    pub fn as_slice(&self) -> &[Node]
        ensures { result.now ≡ self.now.nodes }
    {
        self.nodes.as_slice()
    }

    /// The step of an expression's value. Its steps are put at the end.
    pub fn place(&mut self, pil: &Pil, space: u32, expr: &Expr) -> Result<usize, AllocError>
        requires program { IsProgramOf (namespaces pil.now) space self.old.nodes self.old.here self.old.next }
        requires term { IsTerm (namespaces pil.now) space (term expr.now) }
        requires unnamed { NoPublic (term expr.now) }
        ensures places { IfOk result (λ k. Places (namespaces pil.now) space self.old.nodes self.new.nodes 0 (term expr.now) k) }
        ensures program { IfOk result (λ k. IsProgramOf (namespaces pil.now) space self.new.nodes self.new.here self.new.next) }
    {
        place(
            pil,
            space,
            &mut self.nodes,
            expr,
            false,
            self.here.as_slice(),
            self.next.as_slice(),
        )
    }
}
