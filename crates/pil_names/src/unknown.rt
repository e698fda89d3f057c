//! The first name that isn't declared, and the first index or public that doesn't suit what is declared.
ghost use Rattle.std.specs.Prelude.{◌≡◌, ◌++◌, ◌&&◌, ◌^◌, ◌<◌, flat_map, length, map, option_map, slice_get, is_none};
ghost use Rattle.pil_syntax.specs.Shown.{term, tuple, filter_of};
ghost use Rattle.pil_names.specs.Outline.{constant_at, draft_at, home_at};
ghost use Rattle.pil_names.specs.Finding.{home_named};
ghost use Rattle.pil_names.specs.Wrongs.{unless, each_item, terms_of, terms_of_list, selectors_of, is_before, unknown_constant, unknown_public, unknown_index, length_of, is_column, is_public_in, space_place, unknown_reference, unknown_published, unknown_in_size, unknown_in_term, unknown_in_public, unknown_in_draft, unknown};
ghost use Rattle.pil_names.specs.Least.{least};
ghost use Rattle.pil_names.specs.Shown.{draft, home, outlined};
ghost use Rattle.pil_names.specs.Directory.{IsDirectory, IsCountable};

use crate::directory::Directory;
use crate::least::{lesser, unless};
use crate::outline::{Draft, Outline};
use pil_syntax::{Expr, ExprList, Ident, Number, Reference, Selector, Size};

/// The place of the constant with this number.
fn constant_place(outline: &Outline, constant: u32) -> u64
    ensures { result ≡ (constant_at (outlined outline.now).constants constant).name.at }
{
    match outline.constants.get(constant as usize) {
        Some(declared) => declared.name.at,
        None => 0,
    }
}

/// A constant that isn't declared at a lesser place.
fn unknown_constant(outline: &Outline, directory: &Directory, name: &Ident) -> Option<u64>
    requires { IsDirectory (outlined outline.now) directory.now }
    ensures { result ≡ least (unknown_constant (outlined outline.now) name.now) }
{
    match directory.constant(outline, name) {
        Some(constant) => unless(constant_place(outline, constant) < name.at, name.at),
        None => Some(name.at),
    }
}

/// A public that isn't declared.
fn unknown_public(outline: &Outline, directory: &Directory, name: &Ident) -> Option<u64>
    requires { IsDirectory (outlined outline.now) directory.now }
    ensures { result ≡ least (unknown_public (outlined outline.now) name.now) }
{
    unless(directory.public(outline, name).is_some(), name.at)
}

/// An index that doesn't suit a polynomial of this length, whose name is at this place.
fn unknown_index(at: u64, length: Option<Number>, index: Option<Number>) -> Option<u64>
    ensures { result ≡ least (unknown_index at length index) }
{
    match length {
        None => unless(index.is_none(), at),
        Some(length) => match index {
            None => Some(at),
            Some(index) => unless(index.value < length.value, index.at),
        },
    }
}

/// The item with this number of the namespace `home`.
fn item_at<'a>(outline: &Outline<'a>, home: u32, item: u32) -> Option<Draft<'a>>
    ensures { option_map draft result ≡ slice_get (home_at (outlined outline.now).homes home).items item }
{
    match outline.homes.get(home as usize) {
        Some(space) => space.items.get(item as usize).copied(),
        None => None,
    }
}

/// The length of an item that declares an array.
fn length_of(item: Draft) -> Option<Number>
    ensures { result ≡ length_of (draft item.entry) }
{
    match item {
        Draft::Column {
            kind: _,
            declaration,
        } => declaration.length,
        _ => None,
    }
}

/// The length of the array that the item with this number declares, if it does.
fn length_at(outline: &Outline, home: u32, item: u32) -> Option<Number>
    ensures { result ≡ length_of (draft_at (home_at (outlined outline.now).homes home).items item) }
{
    match item_at(outline, home, item) {
        Some(found) => length_of(found),
        None => None,
    }
}

/// Whether an item declares a constant or committed polynomial.
fn is_column(item: Draft) -> bool
    ensures { result ≡ is_column (draft item.entry) }
{
    matches!(item, Draft::Column { .. })
}

/// Whether the item with this number declares a constant or committed polynomial.
fn is_column_at(outline: &Outline, home: u32, item: u32) -> bool
    ensures { result ≡ is_column (draft_at (home_at (outlined outline.now).homes home).items item) }
{
    match item_at(outline, home, item) {
        Some(found) => is_column(found),
        None => false,
    }
}

/// The place of the namespace that a reference names.
fn space_place(space: &Option<Ident>) -> Option<u64>
    ensures { result ≡ least (space_place space.now) }
{
    match space {
        Some(name) => Some(name.at),
        None => None,
    }
}

/// What isn't declared, or isn't indexed as it is declared, in a reference from the namespace `home`.
fn unknown_reference(
    outline: &Outline,
    directory: &Directory,
    home: u32,
    reference: &Reference,
) -> Option<u64>
    requires { IsDirectory (outlined outline.now) directory.now }
    ensures { result ≡ least (unknown_reference (outlined outline.now) home reference.now) }
{
    match directory.home(outline, home, &reference.space) {
        None => space_place(&reference.space),
        Some(named) => match directory.item(outline, named, reference) {
            None => Some(reference.name.at),
            Some(item) => unknown_index(
                reference.name.at,
                length_at(outline, named, item),
                reference.index,
            ),
        },
    }
}

/// Whether a public may name this, if it is declared.
fn is_public_in(outline: &Outline, directory: &Directory, home: u32, reference: &Reference) -> bool
    requires { IsDirectory (outlined outline.now) directory.now }
    ensures { result ≡ is_public_in (outlined outline.now) reference.now (home_named (outlined outline.now) home reference.now.space) }
{
    match directory.home(outline, home, &reference.space) {
        None => true,
        Some(named) => match directory.item(outline, named, reference) {
            None => true,
            Some(item) => is_column_at(outline, named, item),
        },
    }
}

/// A reference that a public may not have.
fn unknown_published(
    outline: &Outline,
    directory: &Directory,
    home: u32,
    reference: &Reference,
) -> Option<u64>
    requires { IsDirectory (outlined outline.now) directory.now }
    ensures { result ≡ least (unknown_published (outlined outline.now) home reference.now) }
{
    let may_be = is_public_in(outline, directory, home, reference);
    unless(reference.next.is_none() && may_be, reference.name.at)
}

/// The first unknown name of an expression in the namespace `home`.
#[tactic(auto, using(crate::proofs::Passing::joined))]
fn unknown_in_expr(outline: &Outline, directory: &Directory, home: u32, expr: &Expr) -> Option<u64>
    requires { IsDirectory (outlined outline.now) directory.now }
    ensures { result ≡ least (unknown_in_term (outlined outline.now) home (term expr.now)) }
{
    match expr {
        Expr::Number(_) => None,
        Expr::Column(reference) => unknown_reference(outline, directory, home, reference),
        Expr::Constant(name) => unknown_constant(outline, directory, name),
        Expr::Public(name) => unknown_public(outline, directory, name),
        Expr::Neg(a) => unknown_in_expr(outline, directory, home, a.get()),
        Expr::Group(a) => unknown_in_expr(outline, directory, home, a.get()),
        Expr::Add(a, b) => {
            let left = unknown_in_expr(outline, directory, home, a.get());
            let right = unknown_in_expr(outline, directory, home, b.get());
            lesser(left, right)
        }
        Expr::Sub(a, b) => {
            let left = unknown_in_expr(outline, directory, home, a.get());
            let right = unknown_in_expr(outline, directory, home, b.get());
            lesser(left, right)
        }
        Expr::Mul(a, b) => {
            let left = unknown_in_expr(outline, directory, home, a.get());
            let right = unknown_in_expr(outline, directory, home, b.get());
            lesser(left, right)
        }
    }
}

/// The first unknown name of expressions in the namespace `home`.
fn unknown_in_exprs(
    outline: &Outline,
    directory: &Directory,
    home: u32,
    exprs: &[Expr],
) -> Option<u64>
    requires { IsDirectory (outlined outline.now) directory.now }
    ensures { result ≡ least (flat_map (unknown_in_term (outlined outline.now) home) (map term exprs.now)) }
{
    let mut found = None;
    for expr in exprs {
        let here = unknown_in_expr(outline, directory, home, expr);
        found = lesser(found, here);
    }
    found
}

/// The first unknown name of a selector.
#[tactic(auto, using(crate::proofs::Passing::joined))]
fn unknown_in_selector(
    outline: &Outline,
    directory: &Directory,
    home: u32,
    selector: &Selector,
) -> Option<u64>
    requires { IsDirectory (outlined outline.now) directory.now }
    ensures { result ≡ least (flat_map (unknown_in_term (outlined outline.now) home) (selectors_of (filter_of selector.now))) }
{
    match selector {
        Selector::Every => None,
        Selector::Column(reference) => unknown_reference(outline, directory, home, reference),
        Selector::Group(expr) => unknown_in_expr(outline, directory, home, expr),
    }
}

/// The first unknown name of a list.
#[tactic(auto, using(crate::proofs::Passing::joined))]
fn unknown_in_list(
    outline: &Outline,
    directory: &Directory,
    home: u32,
    list: &ExprList,
) -> Option<u64>
    requires { IsDirectory (outlined outline.now) directory.now }
    ensures { result ≡ least (flat_map (unknown_in_term (outlined outline.now) home) (terms_of_list (tuple list.now))) }
{
    let selector = unknown_in_selector(outline, directory, home, &list.selector);
    let entries = unknown_in_exprs(outline, directory, home, list.entries.as_slice());
    lesser(selector, entries)
}

/// The first unknown name of lists.
fn unknown_in_lists(
    outline: &Outline,
    directory: &Directory,
    home: u32,
    lists: &[ExprList],
) -> Option<u64>
    requires { IsDirectory (outlined outline.now) directory.now }
    ensures { result ≡ least (flat_map (unknown_in_term (outlined outline.now) home) (flat_map terms_of_list (map tuple lists.now))) }
{
    let mut found = None;
    for list in lists {
        let here = unknown_in_list(outline, directory, home, list);
        found = lesser(found, here);
    }
    found
}

/// The first unknown name of a public's reference.
#[tactic(auto, using(crate::proofs::Passing::joined))]
fn unknown_in_public(
    outline: &Outline,
    directory: &Directory,
    home: u32,
    item: Draft,
) -> Option<u64>
    requires { IsDirectory (outlined outline.now) directory.now }
    ensures { result ≡ least (unknown_in_public (outlined outline.now) home (draft item.entry)) }
{
    match item {
        Draft::Public {
            name: _,
            column,
            row: _,
        } => {
            let named = unknown_reference(outline, directory, home, column);
            let published = unknown_published(outline, directory, home, column);
            lesser(named, published)
        }
        _ => None,
    }
}

/// The first unknown name in the expressions of an item.
#[tactic(auto, using(crate::proofs::Passing::joined))]
fn unknown_in_terms(outline: &Outline, directory: &Directory, home: u32, item: Draft) -> Option<u64>
    requires { IsDirectory (outlined outline.now) directory.now }
    ensures { result ≡ least (flat_map (unknown_in_term (outlined outline.now) home) (terms_of (draft item.entry))) }
{
    match item {
        Draft::Column { .. } => None,
        Draft::Intermediate { name: _, value } => unknown_in_expr(outline, directory, home, value),
        Draft::Public { .. } => None,
        Draft::Identity { left, right } => {
            let first = unknown_in_expr(outline, directory, home, left);
            let second = unknown_in_expr(outline, directory, home, right);
            lesser(first, second)
        }
        Draft::Lookup { left, right } => {
            let first = unknown_in_list(outline, directory, home, left);
            let second = unknown_in_list(outline, directory, home, right);
            lesser(first, second)
        }
        Draft::Bus { left, right } => {
            let first = unknown_in_lists(outline, directory, home, left);
            let second = unknown_in_lists(outline, directory, home, right);
            lesser(first, second)
        }
    }
}

/// The first unknown name of an item of the namespace `home`.
#[tactic(auto, using(crate::proofs::Passing::joined))]
fn unknown_in_draft(outline: &Outline, directory: &Directory, home: u32, item: Draft) -> Option<u64>
    requires { IsDirectory (outlined outline.now) directory.now }
    ensures { result ≡ least (unknown_in_draft (outlined outline.now) home (draft item.entry)) }
{
    let published = unknown_in_public(outline, directory, home, item);
    let terms = unknown_in_terms(outline, directory, home, item);
    lesser(published, terms)
}

/// The first unknown name of the items of the namespace `home`.
fn unknown_in_items(
    outline: &Outline,
    directory: &Directory,
    home: u32,
    items: &[Draft],
) -> Option<u64>
    requires { IsDirectory (outlined outline.now) directory.now }
    ensures { result ≡ least (flat_map (unknown_in_draft (outlined outline.now) home) (map draft items.now)) }
{
    let mut found = None;
    for item in items {
        let here = unknown_in_draft(outline, directory, home, *item);
        found = lesser(found, here);
    }
    found
}

/// The first unknown name among all items.
fn unknown_in_homes(outline: &Outline, directory: &Directory) -> Option<u64>
    requires listed { IsDirectory (outlined outline.now) directory.now }
    requires few { IsCountable (outlined outline.now) }
    ensures { result ≡ least (each_item (unknown_in_draft (outlined outline.now)) (outlined outline.now)) }
{
    let mut found = None;
    let mut number: u32 = 0;
    for space in outline.homes.as_slice() {
        let here = unknown_in_items(outline, directory, number, space.items.as_slice());
        found = lesser(found, here);
        number += 1;
    }
    found
}

/// The constant of a namespace's size that isn't declared before.
fn unknown_in_size(outline: &Outline, directory: &Directory, size: &Size) -> Option<u64>
    requires { IsDirectory (outlined outline.now) directory.now }
    ensures { result ≡ least (unknown_in_size (outlined outline.now) size.now) }
{
    match size {
        Size::Number(_) => None,
        Size::Constant(name) => unknown_constant(outline, directory, name),
    }
}

/// The first unknown constant of the namespaces' sizes.
fn unknown_in_sizes(outline: &Outline, directory: &Directory) -> Option<u64>
    requires { IsDirectory (outlined outline.now) directory.now }
    ensures { result ≡ least (flat_map (λ h. unknown_in_size (outlined outline.now) h.size) (outlined outline.now).homes) }
{
    let mut found = None;
    for space in outline.homes.as_slice() {
        let here = unknown_in_size(outline, directory, space.size);
        found = lesser(found, here);
    }
    found
}

/// The least place at which a name isn't declared, or not yet; an index isn't below the length; an array
/// stands without index, or another polynomial with one; or a public names what it may not.
#[tactic(auto, using(crate::proofs::Passing::joined))]
pub fn least_unknown(outline: &Outline, directory: &Directory) -> Option<u64>
    requires listed { IsDirectory (outlined outline.now) directory.now }
    requires few { IsCountable (outlined outline.now) }
    ensures { result ≡ least (unknown (outlined outline.now)) }
{
    let sizes = unknown_in_sizes(outline, directory);
    let items = unknown_in_homes(outline, directory);
    lesser(sizes, items)
}
