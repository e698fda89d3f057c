//! Which intermediates have a mark when their expressions are written out.
ghost use Rattle.std.specs.Prelude.{◌≡◌, map, slice_index_or, false, IfOk};
ghost use Rattle.pil_ast.specs.Tree.{line, namespaces};
ghost use Rattle.pil_meaning.specs.Marks.{AreMarks, AreAllMarks, AreWritable, IsWritable, mark_in};

use pil_ast::{Item, Pil, plan};
use sqlite_items::Items;
use std::alloc::{AllocError, Global};

/// Whether each item is an intermediate that has a mark when its expression is written out.
fn marks_of(alloc: Global, items: &[Item]) -> Result<Items<bool>, AllocError>
    requires { IsWritable (map line items.now) }
    ensures { IfOk result (λ marks. AreMarks (map line items.now) marks) }
{
    let turns = plan(alloc, items)?;
    let mut marks = vec![in alloc; false; items.len()]?;
    for turn in turns.as_slice() {
        marks[turn.item as usize] = !turn.ahead;
    }
    Ok(Items::from_vec(marks))
}

/// The same for the items of each namespace.
pub fn all_marks(alloc: Global, pil: &Pil) -> Result<Items<Items<bool>>, AllocError>
    requires { AreWritable (namespaces pil.now) }
    ensures { IfOk result (λ marks. AreAllMarks (namespaces pil.now) marks) }
{
    let mut marks = Items::new(alloc);
    for space in pil.spaces.as_slice() {
        marks.push(marks_of(alloc, space.items.as_slice())?)?;
    }
    Ok(marks)
}

/// Whether the item with this number is marked.
fn mark_of(marks: &Items<bool>, item: u32) -> bool
    ensures { result ≡ slice_index_or marks.now item false }
{
    match marks.get(item as usize) {
        Some(mark) => *mark,
        None => false,
    }
}

/// Whether the item of a namespace is marked.
pub fn is_marked(marks: &[Items<bool>], space: u32, item: u32) -> bool
    ensures { result ≡ mark_in marks.now space item }
{
    match marks.get(space as usize) {
        Some(items) => mark_of(items, item),
        None => false,
    }
}
