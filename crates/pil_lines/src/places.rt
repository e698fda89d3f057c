//! Where the lines of a text stand.
ghost use Rattle.std.specs.Prelude.{◌≡◌, ◌<◌, ◌++◌, Some, length, map, filter, slice_get, All, OnOk, IfOk};
ghost use Rattle.pil_ast.specs.Tree.{line, namespaces};
ghost use Rattle.pil_ast.specs.Term.{item_at, space_at, is_line as is_line_of};
ghost use Rattle.pil_ast.specs.Holds.{lines};
ghost use Rattle.pil_lines.specs.Places.{item_of, IsInside, ArePlaces};

use pil_ast::{Item, Pil};
use std::alloc::{AllocError, Global};

/// A place in a text: a namespace by number and one of its items by number, both from 0.
#[derive(Clone, Copy, Debug)]
pub struct LinePlace {
    pub space: usize,
    pub item: usize,
}

/// Whether an item is an identity, an `in` or an `is`.
fn is_line(item: &Item) -> bool
    ensures { result ≡ is_line_of (line item.now) }
{
    matches!(
        item,
        Item::Identity { .. } | Item::Lookup { .. } | Item::Bus { .. }
    )
}

/// Puts the places of the lines of a namespace, which has these items, at the end.
fn push_places(
    pil: &Pil,
    space: usize,
    items: &[Item],
    places: &mut Vec<LinePlace>,
) -> Result<(), AllocError>
    requires space { space < length (namespaces pil.now) }
    requires items { map line items.now ≡ (space_at (namespaces pil.now) space).items }
    requires inside { All (IsInside (namespaces pil.now)) places.old.items }
    ensures items { OnOk result (map (item_of (namespaces pil.now)) places.new.items ≡ map (item_of (namespaces pil.now)) places.old.items ++ filter is_line_of (map line items.now)) }
    ensures inside { OnOk result (All (IsInside (namespaces pil.now)) places.new.items) }
{
    for item in 0..items.len() {
        if is_line(&items[item]) {
            places.push(LinePlace { space, item })?;
        }
    }
    Ok(())
}

/// The places of all lines in order of the text.
pub fn line_places(alloc: Global, pil: &Pil) -> Result<Vec<LinePlace>, AllocError>
    ensures places { IfOk result (λ places. ArePlaces (namespaces pil.now) places.items) }
    ensures long { IfOk result (λ places. length places.items ≡ length (lines (namespaces pil.now))) }
{
    let mut places = Vec::new(alloc);
    let spaces = pil.spaces.as_slice();
    for space in 0..spaces.len() {
        push_places(pil, space, spaces[space].items.as_slice(), &mut places)?;
    }
    Ok(places)
}

/// The item with a number, from 0.
fn item_in(items: &[Item], item: usize) -> &Item
    requires { item < length items.now }
    ensures { line result.now ≡ item_at (map line items.now) item }
{
    &items[item]
}

/// The item at a place.
fn item_at_place<'a>(pil: &'a Pil, place: &LinePlace) -> &'a Item
    requires { IsInside (namespaces pil.now) place.now }
    ensures { line result.now ≡ item_of (namespaces pil.now) place.now }
{
    let space = &pil.spaces.as_slice()[place.space];
    item_in(space.items.as_slice(), place.item)
}

/// The line with this number from 0, found at once. The places are those of the text's lines.
pub fn line_at<'a>(pil: &'a Pil, places: &[LinePlace], number: usize) -> &'a Item
    requires places { ArePlaces (namespaces pil.now) places.now }
    requires inside { number < length places.now }
    ensures { slice_get (lines (namespaces pil.now)) number ≡ Some (line result.now) }
{
    item_at_place(pil, &places[number])
}
