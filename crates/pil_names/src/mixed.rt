//! The first polynomial of another namespace than the rest of its identity or list.
ghost use Rattle.std.specs.Prelude.{◌≡◌, [], ◌∷◌, flat_map, map};
ghost use Rattle.pil_syntax.specs.Shown.{term, tuple, filter_of};
ghost use Rattle.pil_names.specs.Wrongs.{each_item, terms_of_list, selectors_of, references, home_or, first_home, home_of_terms, stray, strays, mixed_in, mixed_in_draft, mixed};
ghost use Rattle.pil_names.specs.Least.{least};
ghost use Rattle.pil_names.specs.Shown.{draft, outlined};
ghost use Rattle.pil_names.specs.Directory.{IsDirectory, IsCountable};

use crate::directory::Directory;
use crate::least::{lesser, unless};
use crate::outline::{Draft, Outline};
use pil_syntax::{Expr, ExprList, Reference, Selector};

/// The namespace of a reference from `home`, or `home` where it names none that is declared.
fn home_or(outline: &Outline, directory: &Directory, home: u32, reference: &Reference) -> u32
    requires { IsDirectory (outlined outline.now) directory.now }
    ensures { result ≡ home_or (outlined outline.now) home reference.now }
{
    directory
        .home(outline, home, &reference.space)
        .unwrap_or(home)
}

/// The namespace of the first polynomial of an expression, if it has one.
fn first_home(outline: &Outline, directory: &Directory, home: u32, expr: &Expr) -> Option<u32>
    requires { IsDirectory (outlined outline.now) directory.now }
    ensures { result ≡ first_home (outlined outline.now) home (references (term expr.now)) }
{
    match expr {
        Expr::Number(_) => None,
        Expr::Column(reference) => Some(home_or(outline, directory, home, reference)),
        Expr::Constant(_) => None,
        Expr::Public(_) => None,
        Expr::Neg(a) => first_home(outline, directory, home, a.get()),
        Expr::Group(a) => first_home(outline, directory, home, a.get()),
        Expr::Add(a, b) => {
            let left = first_home(outline, directory, home, a.get());
            let right = first_home(outline, directory, home, b.get());
            left.or(right)
        }
        Expr::Sub(a, b) => {
            let left = first_home(outline, directory, home, a.get());
            let right = first_home(outline, directory, home, b.get());
            left.or(right)
        }
        Expr::Mul(a, b) => {
            let left = first_home(outline, directory, home, a.get());
            let right = first_home(outline, directory, home, b.get());
            left.or(right)
        }
    }
}

/// The namespace of the first polynomial of expressions, if they have one.
fn first_home_of_exprs(
    outline: &Outline,
    directory: &Directory,
    home: u32,
    exprs: &[Expr],
) -> Option<u32>
    requires { IsDirectory (outlined outline.now) directory.now }
    ensures { result ≡ first_home (outlined outline.now) home (flat_map references (map term exprs.now)) }
{
    let mut found = None;
    for expr in exprs {
        let here = first_home(outline, directory, home, expr);
        found = found.or(here);
    }
    found
}

/// The namespace of the first polynomial of a selector, if it has one.
fn first_home_of_selector(
    outline: &Outline,
    directory: &Directory,
    home: u32,
    selector: &Selector,
) -> Option<u32>
    requires { IsDirectory (outlined outline.now) directory.now }
    ensures { result ≡ first_home (outlined outline.now) home (flat_map references (selectors_of (filter_of selector.now))) }
{
    match selector {
        Selector::Every => None,
        Selector::Column(reference) => Some(home_or(outline, directory, home, reference)),
        Selector::Group(expr) => first_home(outline, directory, home, expr),
    }
}

/// The namespace of the first polynomial of an identity, or `home` where it has none.
pub fn home_of_identity(
    outline: &Outline,
    directory: &Directory,
    home: u32,
    left: &Expr,
    right: &Expr,
) -> u32
    requires { IsDirectory (outlined outline.now) directory.now }
    ensures { result ≡ home_of_terms (outlined outline.now) home (term left.now ∷ term right.now ∷ []) }
{
    let first = first_home(outline, directory, home, left);
    let second = first_home(outline, directory, home, right);
    first.or(second).unwrap_or(home)
}

/// The namespace of the first polynomial of a list, or `home` where it has none.
pub fn home_of_list(outline: &Outline, directory: &Directory, home: u32, list: &ExprList) -> u32
    requires { IsDirectory (outlined outline.now) directory.now }
    ensures { result ≡ home_of_terms (outlined outline.now) home (terms_of_list (tuple list.now)) }
{
    let selector = first_home_of_selector(outline, directory, home, &list.selector);
    let entries = first_home_of_exprs(outline, directory, home, list.entries.as_slice());
    selector.or(entries).unwrap_or(home)
}

/// A polynomial of another namespace than `wanted`.
fn stray(
    outline: &Outline,
    directory: &Directory,
    home: u32,
    wanted: u32,
    reference: &Reference,
) -> Option<u64>
    requires { IsDirectory (outlined outline.now) directory.now }
    ensures { result ≡ least (stray (outlined outline.now) home wanted reference.now) }
{
    unless(
        home_or(outline, directory, home, reference) == wanted,
        reference.name.at,
    )
}

/// The first polynomial of an expression that is of another namespace than `wanted`.
#[tactic(auto, using(crate::proofs::Passing::joined))]
fn stray_in_expr(
    outline: &Outline,
    directory: &Directory,
    home: u32,
    wanted: u32,
    expr: &Expr,
) -> Option<u64>
    requires { IsDirectory (outlined outline.now) directory.now }
    ensures { result ≡ least (flat_map (stray (outlined outline.now) home wanted) (references (term expr.now))) }
{
    match expr {
        Expr::Number(_) => None,
        Expr::Column(reference) => stray(outline, directory, home, wanted, reference),
        Expr::Constant(_) => None,
        Expr::Public(_) => None,
        Expr::Neg(a) => stray_in_expr(outline, directory, home, wanted, a.get()),
        Expr::Group(a) => stray_in_expr(outline, directory, home, wanted, a.get()),
        Expr::Add(a, b) => {
            let left = stray_in_expr(outline, directory, home, wanted, a.get());
            let right = stray_in_expr(outline, directory, home, wanted, b.get());
            lesser(left, right)
        }
        Expr::Sub(a, b) => {
            let left = stray_in_expr(outline, directory, home, wanted, a.get());
            let right = stray_in_expr(outline, directory, home, wanted, b.get());
            lesser(left, right)
        }
        Expr::Mul(a, b) => {
            let left = stray_in_expr(outline, directory, home, wanted, a.get());
            let right = stray_in_expr(outline, directory, home, wanted, b.get());
            lesser(left, right)
        }
    }
}

/// The first polynomial of expressions that is of another namespace than `wanted`.
fn stray_in_exprs(
    outline: &Outline,
    directory: &Directory,
    home: u32,
    wanted: u32,
    exprs: &[Expr],
) -> Option<u64>
    requires { IsDirectory (outlined outline.now) directory.now }
    ensures { result ≡ least (strays (outlined outline.now) home wanted (map term exprs.now)) }
{
    let mut found = None;
    for expr in exprs {
        let here = stray_in_expr(outline, directory, home, wanted, expr);
        found = lesser(found, here);
    }
    found
}

/// The first polynomial of a selector that is of another namespace than `wanted`.
#[tactic(auto, using(crate::proofs::Passing::joined))]
fn stray_in_selector(
    outline: &Outline,
    directory: &Directory,
    home: u32,
    wanted: u32,
    selector: &Selector,
) -> Option<u64>
    requires { IsDirectory (outlined outline.now) directory.now }
    ensures { result ≡ least (strays (outlined outline.now) home wanted (selectors_of (filter_of selector.now))) }
{
    match selector {
        Selector::Every => None,
        Selector::Column(reference) => stray(outline, directory, home, wanted, reference),
        Selector::Group(expr) => stray_in_expr(outline, directory, home, wanted, expr),
    }
}

/// The first polynomial of a list that is of another namespace than the list's first.
#[tactic(auto, using(crate::proofs::Passing::joined))]
fn mixed_in_list(
    outline: &Outline,
    directory: &Directory,
    home: u32,
    list: &ExprList,
) -> Option<u64>
    requires { IsDirectory (outlined outline.now) directory.now }
    ensures { result ≡ least (mixed_in (outlined outline.now) home (terms_of_list (tuple list.now))) }
{
    let wanted = home_of_list(outline, directory, home, list);
    let selector = stray_in_selector(outline, directory, home, wanted, &list.selector);
    let entries = stray_in_exprs(outline, directory, home, wanted, list.entries.as_slice());
    lesser(selector, entries)
}

/// The first polynomial of one of the lists that is of another namespace than that list's first.
fn mixed_in_lists(
    outline: &Outline,
    directory: &Directory,
    home: u32,
    lists: &[ExprList],
) -> Option<u64>
    requires { IsDirectory (outlined outline.now) directory.now }
    ensures { result ≡ least (flat_map (λ l. mixed_in (outlined outline.now) home (terms_of_list l)) (map tuple lists.now)) }
{
    let mut found = None;
    for list in lists {
        let here = mixed_in_list(outline, directory, home, list);
        found = lesser(found, here);
    }
    found
}

/// The first polynomial of an identity that is of another namespace than the identity's first.
#[tactic(auto, using(crate::proofs::Passing::joined))]
fn mixed_in_identity(
    outline: &Outline,
    directory: &Directory,
    home: u32,
    left: &Expr,
    right: &Expr,
) -> Option<u64>
    requires { IsDirectory (outlined outline.now) directory.now }
    ensures { result ≡ least (mixed_in (outlined outline.now) home (term left.now ∷ term right.now ∷ [])) }
{
    let wanted = home_of_identity(outline, directory, home, left, right);
    let first = stray_in_expr(outline, directory, home, wanted, left);
    let second = stray_in_expr(outline, directory, home, wanted, right);
    lesser(first, second)
}

/// The first polynomial of an item of the namespace `home` that is of another namespace than it may be.
#[tactic(auto, using(crate::proofs::Passing::joined))]
fn mixed_in_draft(outline: &Outline, directory: &Directory, home: u32, item: Draft) -> Option<u64>
    requires { IsDirectory (outlined outline.now) directory.now }
    ensures { result ≡ least (mixed_in_draft (outlined outline.now) home (draft item.entry)) }
{
    match item {
        Draft::Column { .. } => None,
        Draft::Intermediate { name: _, value } => {
            stray_in_expr(outline, directory, home, home, value)
        }
        Draft::Public { .. } => None,
        Draft::Identity { left, right } => {
            mixed_in_identity(outline, directory, home, left, right)
        }
        Draft::Lookup { left, right } => {
            let first = mixed_in_list(outline, directory, home, left);
            let second = mixed_in_list(outline, directory, home, right);
            lesser(first, second)
        }
        Draft::Bus { left, right } => {
            let first = mixed_in_lists(outline, directory, home, left);
            let second = mixed_in_lists(outline, directory, home, right);
            lesser(first, second)
        }
    }
}

/// The first mixed polynomial of the items of the namespace `home`.
fn mixed_in_items(
    outline: &Outline,
    directory: &Directory,
    home: u32,
    items: &[Draft],
) -> Option<u64>
    requires { IsDirectory (outlined outline.now) directory.now }
    ensures { result ≡ least (flat_map (mixed_in_draft (outlined outline.now) home) (map draft items.now)) }
{
    let mut found = None;
    for item in items {
        let here = mixed_in_draft(outline, directory, home, *item);
        found = lesser(found, here);
    }
    found
}

/// The least place of a polynomial of another namespace than the first of its identity or list, or than
/// the one in which an intermediate stands.
pub fn least_mixed(outline: &Outline, directory: &Directory) -> Option<u64>
    requires listed { IsDirectory (outlined outline.now) directory.now }
    requires few { IsCountable (outlined outline.now) }
    ensures { result ≡ least (mixed (outlined outline.now)) }
{
    let mut found = None;
    let mut number: u32 = 0;
    for space in outline.homes.as_slice() {
        let here = mixed_in_items(outline, directory, number, space.items.as_slice());
        found = lesser(found, here);
        number += 1;
    }
    found
}
