//! Whether a checker suits whole tables: what its plan and the lines keep.
ghost use Rattle.pil_ast.specs.Tree.{namespaces};
ghost use Rattle.pil_ast.specs.Columns.{Fits};

use pil_ast::{Columns, Item, List, Pil};

/// A checker of whole tables keeps at most so many tuples.
const MOST_KEPT: u64 = 1 << 26;

/// It has at most so many programs.
const MOST_SPACES: usize = 1 << 10;

/// It goes through all lines for each instance, which comes to at most so many looks at a line.
const MOST_LOOKS: u64 = 1 << 30;

/// How many tuples a list sends at most.
fn most_sent<C: Columns>(pil: &Pil, columns: &C, list: &List) -> u64
    requires { Fits (namespaces pil.now) (C.values columns.now) }
{
    if list.space as usize >= pil.spaces.len() {
        return 0;
    }
    let instances = columns.instances(list.space) as u64;
    instances.saturating_mul(pil.rows(list.space) as u64)
}

/// How many tuples some lists send at most.
fn most_of_lists<C: Columns>(pil: &Pil, columns: &C, lists: &[List]) -> u64
    requires { Fits (namespaces pil.now) (C.values columns.now) }
{
    let mut most = 0u64;
    for list in lists {
        most = most.saturating_add(most_sent(pil, columns, list));
    }
    most
}

/// How many tuples an item keeps at most: those of the right side of an `in`, and of both sides of an `is`.
fn most_of_item<C: Columns>(pil: &Pil, columns: &C, item: &Item) -> u64
    requires { Fits (namespaces pil.now) (C.values columns.now) }
{
    match item {
        Item::Lookup { left: _, right } => most_sent(pil, columns, right),
        Item::Bus { left, right } => {
            let sent = most_of_lists(pil, columns, left.as_slice());
            sent.saturating_add(most_of_lists(pil, columns, right.as_slice()))
        }
        _ => 0,
    }
}

/// How many tuples some items keep at most.
fn most_of_items<C: Columns>(pil: &Pil, columns: &C, items: &[Item]) -> u64
    requires { Fits (namespaces pil.now) (C.values columns.now) }
{
    let mut most = 0u64;
    for item in items {
        most = most.saturating_add(most_of_item(pil, columns, item));
    }
    most
}

/// How many tuples the lines of a text keep at most.
fn most_kept<C: Columns>(pil: &Pil, columns: &C) -> u64
    requires { Fits (namespaces pil.now) (C.values columns.now) }
{
    let mut most = 0u64;
    for space in pil.spaces.as_slice() {
        most = most.saturating_add(most_of_items(pil, columns, space.items.as_slice()));
    }
    most
}

/// How many instances there are of the first namespaces, of which a checker has no more.
fn checked_instances<C: Columns>(pil: &Pil, columns: &C) -> u64
    requires { Fits (namespaces pil.now) (C.values columns.now) }
{
    let mut all = 0u64;
    for space in 0..pil.spaces.len().min(MOST_SPACES) {
        all = all.saturating_add(columns.instances(space as u32) as u64);
    }
    all
}

/// How many items there are in all namespaces, which are at least as many as lines.
fn all_items(pil: &Pil) -> u64 {
    let mut all = 0u64;
    for space in pil.spaces.as_slice() {
        all = all.saturating_add(space.items.len() as u64);
    }
    all
}

/// Whether a checker of a text has few programs, goes through few lines and keeps few tuples. Nothing rests on it but time and
/// memory.
pub fn suits_checker<C: Columns>(pil: &Pil, columns: &C) -> bool
    requires { Fits (namespaces pil.now) (C.values columns.now) }
{
    pil.spaces.len() <= MOST_SPACES
        && checked_instances(pil, columns).saturating_mul(all_items(pil)) <= MOST_LOOKS
        && most_kept(pil, columns) <= MOST_KEPT
}
