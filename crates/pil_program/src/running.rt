//! The values of a program's steps at a block of rows.
ghost use Rattle.std.specs.Prelude.{◌≡◌, ◌<◌, ◌≤◌, ◌+◌, ℕ, length};
ghost use Rattle.pil_program.specs.Program.{IsStep, IsProgram, step_value, cell, AreValues};
ghost use Rattle.pil_program.specs.Blocks.{Holds, IsStretch, at_lane};

use crate::block::Block;
use crate::nodes::Node;
use pil_ast::Columns;

/// Columns that can be had whole.
pub trait InstanceColumns: Columns {
    ghost use Rattle.std.specs.Prelude.{length, slice_index};
    ghost use Rattle.gold.specs.Field.{IsCanonical};

    /// The values of a column of an instance, row by row.
    fn column(&self, space: u32, instance: u32, column: u32) -> &[u64]
        requires space { space < (Self.values self.now).spaces }
        requires instance { instance < (Self.values self.now).instances space }
        requires column { column < (Self.values self.now).width space }
        ensures long { length result.now ≡ (Self.values self.now).rows space }
        ensures canonical { IsCanonical result.now }
        ensures values { (r : ℕ) → r < (Self.values self.now).rows space → slice_index result.now r ≡ (Self.values self.now).at space instance column r };
}

/// Some rows of an instance, one after the other.
#[derive(Clone, Copy)]
pub struct Stretch {
    pub space: u32,
    pub instance: u32,
    /// The first row.
    pub base: usize,
    /// How many rows, at most those of a block.
    pub count: usize,
}

/// Writes the values of a column.
#[inline]
fn load<C: InstanceColumns>(
    columns: &C,
    stretch: &Stretch,
    column: u32,
    next: bool,
    out: &mut Block,
)
    requires stretch { IsStretch (C.values columns.now) stretch.now }
    requires column { column < (C.values columns.now).width stretch.now.space }
    ensures { Holds out.new.values stretch.now.count (λ j. cell (C.values columns.now) stretch.now.space stretch.now.instance (stretch.now.base + j) column next) }
{
    let values = columns.column(stretch.space, stretch.instance, column);
    if next {
        out.load_next(values, stretch.base, stretch.count);
    } else {
        out.load(values, stretch.base, stretch.count);
    }
}

/// Writes the values of a step, where those of the steps before it are known.
#[inline]
fn run_step<C: InstanceColumns>(
    columns: &C,
    stretch: &Stretch,
    node: &Node,
    done: &[Block],
    out: &mut Block,
)
    requires stretch { IsStretch (C.values columns.now) stretch.now }
    requires step { IsStep ((C.values columns.now).width stretch.now.space) (length done.now) node.now }
    ensures { Holds out.new.values stretch.now.count (λ j. step_value (cell (C.values columns.now) stretch.now.space stretch.now.instance (stretch.now.base + j)) (at_lane done.now j) node.now) }
{
    match node {
        Node::Number(n) => out.fill(*n),
        Node::Column { column, next } => load(columns, stretch, *column, *next, out),
        Node::Neg(a) => out.neg(&done[*a]),
        Node::Add(a, b) => out.add(&done[*a], &done[*b]),
        Node::Sub(a, b) => out.sub(&done[*a], &done[*b]),
        Node::Mul(a, b) => out.mul(&done[*a], &done[*b]),
    }
}

/// Writes the values of each step of a program at some rows. It takes no memory.
pub fn run<C: InstanceColumns>(columns: &C, stretch: &Stretch, nodes: &[Node], blocks: &mut [Block])
    requires stretch { IsStretch (C.values columns.now) stretch.now }
    requires program { IsProgram ((C.values columns.now).width stretch.now.space) nodes.now }
    requires room { length nodes.now ≤ length blocks.old }
    ensures values { (j : ℕ) → j < stretch.now.count → AreValues (C.values columns.now) stretch.now.space stretch.now.instance (stretch.now.base + j) nodes.now (length nodes.now) (at_lane blocks.new j) }
    ensures room { length blocks.new ≡ length blocks.old }
{
    for number in 0..nodes.len() {
        let (done, rest) = blocks.split_at_mut(number);
        run_step(columns, stretch, &nodes[number], done, &mut rest[0]);
    }
}
