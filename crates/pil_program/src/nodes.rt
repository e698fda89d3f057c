//! The steps of a straight-line program.
ghost use Rattle.std.specs.Prelude.{◌≡◌, [], true, Some, slice_get, IfOk, OnErr};
ghost use Rattle.pil_program.specs.Program.{IsPlaced};

use gold::Fe;
use sqlite_items::Items;
use std::alloc::{AllocError, Global};
use std::marker::Model;

/// A step of a program. Its operands are steps before it, by number.
#[derive(Clone, Copy, Debug, PartialEq, Eq)]
pub enum Node {
    Number(Fe),
    /// A column at this row, or at the next.
    Column { column: u32, next: bool },
    Neg(usize),
    Add(usize, usize),
    Sub(usize, usize),
    Mul(usize, usize),
}

/// The steps of a program in order. Contracts see them as the list of them. Equal steps are mostly one.
#[derive(Drop)]
pub struct Nodes {
    nodes: Items<Node>,
    /// By a remainder of a step's code the last such step; nothing rests on it.
    latest: Vec<usize>,
}

impl Model for Nodes {
    ghost use Rattle.std.specs.Prelude.{List};
    ghost use Rattle.pil_program.specs.declared.nodes.Node.{Node};

    ghost Value = { List Node };

    ghost view = { λ n. n.nodes };
}

/// A number that equal steps share and others mostly don't.
fn code(node: &Node) -> u64 {
    let (kind, a, b) = match node {
        Node::Number(n) => (0u64, n.value(), 0u64),
        Node::Column { column, next } => (if *next { 1 } else { 2 }, *column as u64, 0),
        Node::Neg(a) => (4, *a as u64, 0),
        Node::Add(a, b) => (5, *a as u64, *b as u64),
        Node::Sub(a, b) => (6, *a as u64, *b as u64),
        Node::Mul(a, b) => (7, *a as u64, *b as u64),
    };
    a.wrapping_mul(0x9e37_79b9_7f4a_7c15)
        .wrapping_add(b.wrapping_mul(0xc2b2_ae3d_27d4_eb4f))
        .wrapping_add(kind.wrapping_mul(0x1656_67b1_9e37_79f9))
}

/// A step that is remembered for this one, or a number that is no step.
fn remembered(latest: &[usize], code: u64) -> usize {
    if latest.is_empty() {
        return 0;
    }
    latest[((code >> 20) % latest.len() as u64) as usize]
}

/// Remembers a step.
fn remember(latest: &mut [usize], code: u64, number: usize) {
    if !latest.is_empty() {
        let slot = ((code >> 20) % latest.len() as u64) as usize;
        latest[slot] = number;
    }
}

/// Whether a step is among the steps at a number.
fn stands_at(nodes: &[Node], number: usize, node: Node) -> bool
    ensures { result ≡ true → slice_get nodes.now number ≡ Some node }
{
    number < nodes.len() && nodes[number] == node
}

impl Nodes {
    /// No steps.
    pub fn new(alloc: Global) -> Result<Nodes, AllocError>
        ensures { IfOk result (λ n. n ≡ []) }
    {
        Ok(Nodes {
            nodes: Items::new(alloc),
            latest: vec![in alloc; 0usize; 4096]?,
        })
    }

    pub fn as_slice(&self) -> &[Node]
        ensures { result.now ≡ self.now }
    {
        self.nodes.as_slice()
    }

    /// The number of a step that is equal to this one. It is put at the end where none is remembered.
    pub fn place(&mut self, node: Node) -> Result<usize, AllocError>
        ensures placed { IfOk result (λ k. IsPlaced self.old self.new node k) }
        ensures err { OnErr result (self.new ≡ self.old) }
    {
        let mark = code(&node);
        let known = remembered(&self.latest, mark);
        if stands_at(self.nodes.as_slice(), known, node) {
            return Ok(known);
        }
        let number = self.nodes.len();
        self.nodes.push(node)?;
        remember(&mut self.latest, mark, number);
        Ok(number)
    }
}
