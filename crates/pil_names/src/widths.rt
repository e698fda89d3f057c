//! The first array that is too short or too long, and the first list of another width.
ghost use Rattle.std.specs.Prelude.{◌≡◌, ℕ, [], ◌∷◌, flat_map, map, length};
ghost use Rattle.pil_syntax.specs.Shown.{tuple};
ghost use Rattle.pil_names.specs.Wrongs.{each_item, wrong_length, other_width, other_widths, width_of_first, wrong_widths_of, wrong_widths};
ghost use Rattle.pil_names.specs.Least.{least};
ghost use Rattle.pil_names.specs.Shown.{draft, outlined};

use crate::least::{lesser, unless};
use crate::outline::{Draft, Outline};
use pil_syntax::{ExprList, Number};

/// The length of an array with no element or with more than 4,096.
fn wrong_length(length: Option<Number>) -> Option<u64>
    ensures { result ≡ least (wrong_length length) }
{
    match length {
        Some(number) => unless(0 < number.value && number.value <= 4096, number.at),
        None => None,
    }
}

/// A list that has another number of expressions than `width`.
fn other_width(width: usize, list: &ExprList) -> Option<u64>
    ensures { result ≡ least (other_width width (tuple list.now)) }
{
    unless(list.entries.len() == width, list.at)
}

/// The first of the lists that has another number of expressions than `width`.
fn other_widths(width: usize, lists: &[ExprList]) -> Option<u64>
    ensures { result ≡ least (other_widths width (map tuple lists.now)) }
{
    let mut found = None;
    for list in lists {
        let here = other_width(width, list);
        found = lesser(found, here);
    }
    found
}

/// How many expressions the first list has.
fn width_of_first(lists: &[ExprList]) -> usize
    ensures { result ≡ width_of_first (map tuple lists.now) }
{
    match lists {
        [] => 0,
        [first, ..] => first.entries.len(),
    }
}

/// The wrong length or width of an item.
#[tactic(auto, using(crate::proofs::Passing::joined))]
fn wrong_widths_of(item: Draft) -> Option<u64>
    ensures { result ≡ least (wrong_widths_of (draft item.entry)) }
{
    match item {
        Draft::Column {
            kind: _,
            declaration,
        } => wrong_length(declaration.length),
        Draft::Lookup { left, right } => other_width(left.entries.len(), right),
        Draft::Bus { left, right } => {
            let width = width_of_first(left);
            let first = other_widths(width, left);
            let second = other_widths(width, right);
            lesser(first, second)
        }
        _ => None,
    }
}

/// The first wrong length or width of the items.
fn wrong_widths_in_items(items: &[Draft]) -> Option<u64>
    ensures { result ≡ least (flat_map wrong_widths_of (map draft items.now)) }
{
    let mut found = None;
    for item in items {
        let here = wrong_widths_of(*item);
        found = lesser(found, here);
    }
    found
}

/// The least place of an array's length that is 0 or above 4,096, or of a list that has another number of
/// expressions than the first of its line.
pub fn least_wrong_width(outline: &Outline) -> Option<u64>
    ensures { result ≡ least (wrong_widths (outlined outline.now)) }
{
    let mut found = None;
    for space in outline.homes.as_slice() {
        let here = wrong_widths_in_items(space.items.as_slice());
        found = lesser(found, here);
    }
    found
}
