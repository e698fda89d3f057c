//! The tables and the lines of a text.
ghost use Rattle.std.specs.Prelude.{◌≡◌, ◌<◌, ◌≤◌, ◌^◌, ◌-◌, map, length, count_by, sum_by, cond, IfOk, slice_get, filter, option_map};
ghost use Rattle.std.specs.Option.{option_copied};
ghost use Rattle.gold.specs.declared.shapes.Form.TheVariants.{Plain};
ghost use Rattle.pil_ast.specs.Tree.{line, namespaces};
ghost use Rattle.pil_ast.specs.Term.{columns_of, space_at, is_line as is_line_of};
ghost use Rattle.pil_ast.specs.Sound.{IsSound};
ghost use Rattle.pil_ast.specs.Holds.{lines as lines_of};
ghost use Rattle.pil_ast.specs.Shape.{air_shape};

use crate::tree::{Item, Pil};
use gold::{AirShape, Form, Sequence, Shape};
use std::alloc::{AllocError, Global};

/// How many columns an item declares.
fn column_count(item: &Item) -> u32
    ensures { result ≡ columns_of (line item.now) }
{
    match item {
        Item::Constant { name: _, len } => len.unwrap_or(1),
        Item::Commit { name: _, len } => len.unwrap_or(1),
        _ => 0,
    }
}

/// Whether an item is an identity, an `in` or an `is`.
fn is_line(item: &Item) -> bool
    ensures { result ≡ is_line_of (line item.now) }
{
    matches!(
        item,
        Item::Identity { .. } | Item::Lookup { .. } | Item::Bus { .. }
    )
}

/// How many columns the items declare.
fn width_of(items: &[Item]) -> u32
    requires { sum_by (λ item. columns_of (line item)) items.now < 2 ^ 32 }
    ensures { result ≡ sum_by (λ item. columns_of (line item)) items.now }
{
    let mut columns = 0;
    for item in items {
        columns += column_count(item);
    }
    columns
}

/// How many of the items are lines.
fn line_count(items: &[Item]) -> u32
    requires { length items.now < 2 ^ 32 }
    ensures { result ≡ count_by (λ item. is_line_of (line item)) items.now }
{
    let mut lines = 0;
    for item in items {
        lines += lines_of_item(item);
    }
    lines
}

/// The line with this number among the items, from 0.
fn line_in(items: &[Item], number: u32) -> Option<&Item>
    ensures { option_copied result ≡ slice_get (filter (λ item. is_line_of (line item)) items.now) number }
{
    let mut before = number;
    for item in items {
        let here = lines_of_item(item);
        if before < here {
            return Some(item);
        }
        before -= here;
    }
    None
}

/// 1 for a line, and else 0.
fn lines_of_item(item: &Item) -> u32
    ensures { result ≡ cond (is_line_of (line item.now)) 1 0 }
{
    if is_line(item) { 1 } else { 0 }
}

impl Pil {
    /// The shape of the text's tables: one air for each namespace in order of declaration, whose
    /// columns are its constant polynomials and then its committed ones. Its form is Plain.
    pub fn shape(&self, alloc: Global) -> Result<Shape, AllocError>
        requires { IsSound (namespaces self.now) }
        ensures { IfOk result (λ s. (s.airs ≡ map air_shape (namespaces self.now)) × (s.form ≡ Plain)) }
    {
        let mut airs = Sequence::new(alloc);
        for space in self.spaces.as_slice() {
            airs.push(AirShape {
                rows: space.rows,
                columns: width_of(space.items.as_slice()),
                most: 1 << 20,
            })?;
        }
        Ok(Shape {
            airs,
            form: Form::Plain,
        })
    }

    /// The rows of each instance of a namespace.
    pub fn rows(&self, space: u32) -> u32
        requires { space < length (namespaces self.now) }
        ensures { result ≡ (space_at (namespaces self.now) space).rows }
    {
        self.spaces.as_slice()[space as usize].rows
    }

    /// The number of lines: identities, `in` and `is`.
    pub fn lines(&self) -> u32
        requires { IsSound (namespaces self.now) }
        ensures { result ≡ length (lines_of (namespaces self.now)) }
    {
        let mut lines = 0;
        for space in self.spaces.as_slice() {
            lines += line_count(space.items.as_slice());
        }
        lines
    }

    /// The line with this number in order of the text, from 1: None exactly where there is none.
    pub fn line(&self, number: u32) -> Option<&Item>
        requires sound { IsSound (namespaces self.now) }
        requires first { 1 ≤ number }
        ensures { option_map line (option_copied result) ≡ slice_get (lines_of (namespaces self.now)) (number - 1) }
    {
        let mut before = number - 1;
        for space in self.spaces.as_slice() {
            let items = space.items.as_slice();
            let here = line_count(items);
            if before < here {
                return line_in(items, before);
            }
            before -= here;
        }
        None
    }
}
