//! The first mark on an intermediate whose expression has a mark when it is written out.
ghost use Rattle.std.specs.Prelude.{◌≡◌, flat_map, map, IfOk};
ghost use Rattle.pil_syntax.specs.Shown.{term, tuple, filter_of};
ghost use Rattle.pil_ast.specs.Tree.{namespaces};
ghost use Rattle.pil_names.specs.Wrongs.{each_item, terms_of_list, selectors_of};
ghost use Rattle.pil_names.specs.Least.{lesser, least};
ghost use Rattle.pil_names.specs.Shown.{draft, outlined};
ghost use Rattle.pil_names.specs.Directory.{IsDirectory, IsCountable};
ghost use Rattle.pil_meaning.specs.Meaning.{meaning, read_reference};
ghost use Rattle.pil_meaning.specs.Marks.{AreAllMarks, AreWritable, double_of, double_reference, double_in_term, double_in_draft, double};

use crate::marks::{all_marks, is_marked};
use pil_ast::Pil;
use pil_names::{Directory, Draft, Outline};
use pil_syntax::{Expr, ExprList, Reference, Selector};
use sqlite_items::Items;
use std::alloc::{AllocError, Global};

/// The lesser of two places, each of which may be missing.
fn lesser(a: Option<u64>, b: Option<u64>) -> Option<u64>
    ensures { result ≡ lesser a b }
{
    match a {
        None => b,
        Some(m) => match b {
            None => a,
            Some(n) => Some(m.min(n)),
        },
    }
}

/// The mark at this place, if the reference before it names an intermediate that has one.
fn double_at(
    outline: &Outline,
    directory: &Directory,
    marks: &[Items<bool>],
    home: u32,
    reference: &Reference,
    at: u64,
) -> Option<u64>
    requires listed { IsDirectory (outlined outline.now) directory.now }
    requires marks { AreAllMarks (meaning (outlined outline.now)) marks.now }
    ensures { result ≡ least (double_of (meaning (outlined outline.now)) (read_reference (outlined outline.now) home reference.now) at) }
{
    let space = directory
        .home(outline, home, &reference.space)
        .unwrap_or(home);
    match directory.item(outline, space, reference) {
        Some(item) => {
            if is_marked(marks, space, item) {
                Some(at)
            } else {
                None
            }
        }
        None => None,
    }
}

/// The double mark of a reference from the namespace `home`.
fn double_reference(
    outline: &Outline,
    directory: &Directory,
    marks: &[Items<bool>],
    home: u32,
    reference: &Reference,
) -> Option<u64>
    requires listed { IsDirectory (outlined outline.now) directory.now }
    requires marks { AreAllMarks (meaning (outlined outline.now)) marks.now }
    ensures { result ≡ least (double_reference (outlined outline.now) home reference.now) }
{
    match reference.next {
        Some(at) => double_at(outline, directory, marks, home, reference, at),
        None => None,
    }
}

/// The first double mark of an expression in the namespace `home`.
#[tactic(auto, using(crate::proofs::Passing::joined))]
fn double_in_expr(
    outline: &Outline,
    directory: &Directory,
    marks: &[Items<bool>],
    home: u32,
    expr: &Expr,
) -> Option<u64>
    requires listed { IsDirectory (outlined outline.now) directory.now }
    requires marks { AreAllMarks (meaning (outlined outline.now)) marks.now }
    ensures { result ≡ least (double_in_term (outlined outline.now) home (term expr.now)) }
{
    match expr {
        Expr::Number(_) => None,
        Expr::Column(reference) => double_reference(outline, directory, marks, home, reference),
        Expr::Constant(_) => None,
        Expr::Public(_) => None,
        Expr::Neg(a) => double_in_expr(outline, directory, marks, home, a.get()),
        Expr::Group(a) => double_in_expr(outline, directory, marks, home, a.get()),
        Expr::Add(a, b) => {
            let left = double_in_expr(outline, directory, marks, home, a.get());
            let right = double_in_expr(outline, directory, marks, home, b.get());
            lesser(left, right)
        }
        Expr::Sub(a, b) => {
            let left = double_in_expr(outline, directory, marks, home, a.get());
            let right = double_in_expr(outline, directory, marks, home, b.get());
            lesser(left, right)
        }
        Expr::Mul(a, b) => {
            let left = double_in_expr(outline, directory, marks, home, a.get());
            let right = double_in_expr(outline, directory, marks, home, b.get());
            lesser(left, right)
        }
    }
}

/// The first double mark of expressions in the namespace `home`.
fn double_in_exprs(
    outline: &Outline,
    directory: &Directory,
    marks: &[Items<bool>],
    home: u32,
    exprs: &[Expr],
) -> Option<u64>
    requires listed { IsDirectory (outlined outline.now) directory.now }
    requires marks { AreAllMarks (meaning (outlined outline.now)) marks.now }
    ensures { result ≡ least (flat_map (double_in_term (outlined outline.now) home) (map term exprs.now)) }
{
    let mut found = None;
    for expr in exprs {
        let here = double_in_expr(outline, directory, marks, home, expr);
        found = lesser(found, here);
    }
    found
}

/// The first double mark of a selector.
#[tactic(auto, using(crate::proofs::Passing::joined))]
fn double_in_selector(
    outline: &Outline,
    directory: &Directory,
    marks: &[Items<bool>],
    home: u32,
    selector: &Selector,
) -> Option<u64>
    requires listed { IsDirectory (outlined outline.now) directory.now }
    requires marks { AreAllMarks (meaning (outlined outline.now)) marks.now }
    ensures { result ≡ least (flat_map (double_in_term (outlined outline.now) home) (selectors_of (filter_of selector.now))) }
{
    match selector {
        Selector::Every => None,
        Selector::Column(reference) => double_reference(outline, directory, marks, home, reference),
        Selector::Group(expr) => double_in_expr(outline, directory, marks, home, expr),
    }
}

/// The first double mark of a list.
#[tactic(auto, using(crate::proofs::Passing::joined))]
fn double_in_list(
    outline: &Outline,
    directory: &Directory,
    marks: &[Items<bool>],
    home: u32,
    list: &ExprList,
) -> Option<u64>
    requires listed { IsDirectory (outlined outline.now) directory.now }
    requires marks { AreAllMarks (meaning (outlined outline.now)) marks.now }
    ensures { result ≡ least (flat_map (double_in_term (outlined outline.now) home) (terms_of_list (tuple list.now))) }
{
    let selector = double_in_selector(outline, directory, marks, home, &list.selector);
    let entries = double_in_exprs(outline, directory, marks, home, list.entries.as_slice());
    lesser(selector, entries)
}

/// The first double mark of lists.
fn double_in_lists(
    outline: &Outline,
    directory: &Directory,
    marks: &[Items<bool>],
    home: u32,
    lists: &[ExprList],
) -> Option<u64>
    requires listed { IsDirectory (outlined outline.now) directory.now }
    requires marks { AreAllMarks (meaning (outlined outline.now)) marks.now }
    ensures { result ≡ least (flat_map (double_in_term (outlined outline.now) home) (flat_map terms_of_list (map tuple lists.now))) }
{
    let mut found = None;
    for list in lists {
        let here = double_in_list(outline, directory, marks, home, list);
        found = lesser(found, here);
    }
    found
}

/// The first double mark in the expressions of an item.
#[tactic(auto, using(crate::proofs::Passing::joined))]
fn double_in_draft(
    outline: &Outline,
    directory: &Directory,
    marks: &[Items<bool>],
    home: u32,
    item: Draft,
) -> Option<u64>
    requires listed { IsDirectory (outlined outline.now) directory.now }
    requires marks { AreAllMarks (meaning (outlined outline.now)) marks.now }
    ensures { result ≡ least (double_in_draft (outlined outline.now) home (draft item.entry)) }
{
    match item {
        Draft::Column { .. } => None,
        Draft::Intermediate { name: _, value } => double_in_expr(
            outline, directory, marks, home, value,
        ),
        Draft::Public { .. } => None,
        Draft::Identity { left, right } => {
            let first = double_in_expr(outline, directory, marks, home, left);
            let second = double_in_expr(outline, directory, marks, home, right);
            lesser(first, second)
        }
        Draft::Lookup { left, right } => {
            let first = double_in_list(outline, directory, marks, home, left);
            let second = double_in_list(outline, directory, marks, home, right);
            lesser(first, second)
        }
        Draft::Bus { left, right } => {
            let first = double_in_lists(outline, directory, marks, home, left);
            let second = double_in_lists(outline, directory, marks, home, right);
            lesser(first, second)
        }
    }
}

/// The first double mark of the items of the namespace `home`.
fn double_in_items(
    outline: &Outline,
    directory: &Directory,
    marks: &[Items<bool>],
    home: u32,
    items: &[Draft],
) -> Option<u64>
    requires listed { IsDirectory (outlined outline.now) directory.now }
    requires marks { AreAllMarks (meaning (outlined outline.now)) marks.now }
    ensures { result ≡ least (flat_map (double_in_draft (outlined outline.now) home) (map draft items.now)) }
{
    let mut found = None;
    for item in items {
        let here = double_in_draft(outline, directory, marks, home, *item);
        found = lesser(found, here);
    }
    found
}

/// The first double mark among all items.
fn double_in_homes(outline: &Outline, directory: &Directory, marks: &[Items<bool>]) -> Option<u64>
    requires listed { IsDirectory (outlined outline.now) directory.now }
    requires marks { AreAllMarks (meaning (outlined outline.now)) marks.now }
    requires few { IsCountable (outlined outline.now) }
    ensures { result ≡ least (each_item (double_in_draft (outlined outline.now)) (outlined outline.now)) }
{
    let mut found = None;
    let mut number: u32 = 0;
    for space in outline.homes.as_slice() {
        let here = double_in_items(outline, directory, marks, number, space.items.as_slice());
        found = lesser(found, here);
        number += 1;
    }
    found
}

/// The least place of a mark on an intermediate that has a mark when its expression is written out.
pub fn least_double_mark(
    alloc: Global,
    outline: &Outline,
    directory: &Directory,
    pil: &Pil,
) -> Result<Option<u64>, AllocError>
    requires listed { IsDirectory (outlined outline.now) directory.now }
    requires few { IsCountable (outlined outline.now) }
    requires read { namespaces pil.now ≡ meaning (outlined outline.now) }
    requires writable { AreWritable (namespaces pil.now) }
    ensures { IfOk result (λ at. at ≡ least (double (outlined outline.now))) }
{
    let marks = all_marks(alloc, pil)?;
    Ok(double_in_homes(outline, directory, marks.as_slice()))
}
