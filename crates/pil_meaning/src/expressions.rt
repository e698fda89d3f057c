//! Expressions with numbers in place of names.
ghost use Rattle.std.specs.Prelude.{◌≡◌, ◌<◌, ◌+◌, ◌^◌, Some, IfOk};
ghost use Rattle.pil_syntax.specs.Shown.{term as term_of};
ghost use Rattle.pil_ast.specs.Tree.{term};
ghost use Rattle.pil_ast.specs.Term.{col, num};
ghost use Rattle.gold.specs.Field.{p};
ghost use Rattle.pil_names.specs.Shown.{outlined};
ghost use Rattle.pil_names.specs.Directory.{IsDirectory};
ghost use Rattle.pil_names.specs.Wrongs.{constant_value};
ghost use Rattle.pil_meaning.specs.Meaning.{number_or_zero, column_number as column_number_of, read_in, read_reference as reference_of, read_term};
ghost use Rattle.pil_meaning.specs.Firsts.{firsts_of};
ghost use Rattle.pil_meaning.specs.Fitting.{FitsTerm};

use crate::firsts::first_column;
use gold::Fe;
use pil_ast::{add, column, inter, mul, neg, number, public, sub};
use pil_names::{Directory, Outline};
use pil_syntax::{Expr, Ident, Number, Reference};
use sqlite_items::Items;
use std::alloc::{AllocError, Global};

/// The element of an array that begins at the column `first`, or that column.
fn element(space: u32, first: u32, index: &Option<Number>, next: bool) -> pil_ast::Expr
    requires { first + number_or_zero index.now < 2 ^ 32 }
    ensures { term result ≡ col space (first + number_or_zero index.now) next }
{
    let index = match index {
        Some(index) => index.value as u32,
        None => 0,
    };
    column(space, first + index, next)
}

/// What a reference to this item of the namespace `space` stands for.
fn read_item(
    outline: &Outline,
    firsts: &[Items<Option<u32>>],
    space: u32,
    item: u32,
    reference: &Reference,
) -> pil_ast::Expr
    requires firsts { firsts.now ≡ firsts_of (outlined outline.now) }
    requires fits { column_number_of (read_in (outlined outline.now) space reference.now (Some item)) < 2 ^ 32 }
    ensures { term result ≡ read_in (outlined outline.now) space reference.now (Some item) }
{
    let next = reference.next.is_some();
    match first_column(firsts, space, item) {
        Some(first) => element(space, first, &reference.index, next),
        None => inter(space, item, next),
    }
}

/// What a reference from the namespace `home` stands for: 0 where it names no polynomial.
pub fn read_reference(
    outline: &Outline,
    directory: &Directory,
    firsts: &[Items<Option<u32>>],
    home: u32,
    reference: &Reference,
) -> pil_ast::Expr
    requires listed { IsDirectory (outlined outline.now) directory.now }
    requires firsts { firsts.now ≡ firsts_of (outlined outline.now) }
    requires fits { column_number_of (reference_of (outlined outline.now) home reference.now) < 2 ^ 32 }
    ensures { term result ≡ reference_of (outlined outline.now) home reference.now }
{
    let space = directory
        .home(outline, home, &reference.space)
        .unwrap_or(home);
    match directory.item(outline, space, reference) {
        Some(item) => read_item(outline, firsts, space, item, reference),
        None => number(Fe::ZERO),
    }
}

/// The column that a reference stands for: 0 where it stands for none.
pub fn column_number(expr: &pil_ast::Expr) -> u32
    ensures { result ≡ column_number_of (term expr.now) }
{
    match expr {
        pil_ast::Expr::Column {
            space: _,
            column,
            next: _,
        } => *column,
        _ => 0,
    }
}

/// The number that a constant's name stands for.
fn read_constant(outline: &Outline, directory: &Directory, name: &Ident) -> pil_ast::Expr
    requires listed { IsDirectory (outlined outline.now) directory.now }
    requires fits { constant_value (outlined outline.now) name.now < p }
    ensures { term result ≡ num (constant_value (outlined outline.now) name.now) }
{
    number(Fe::new(directory.constant_value(outline, name)))
}

/// An expression that stands in the namespace `home`.
pub fn read_expr(
    alloc: Global,
    outline: &Outline,
    directory: &Directory,
    firsts: &[Items<Option<u32>>],
    home: u32,
    expr: &Expr,
) -> Result<pil_ast::Expr, AllocError>
    requires listed { IsDirectory (outlined outline.now) directory.now }
    requires firsts { firsts.now ≡ firsts_of (outlined outline.now) }
    requires fits { FitsTerm (read_term (outlined outline.now) home (term_of expr.now)) }
    ensures { IfOk result (λ e. term e ≡ read_term (outlined outline.now) home (term_of expr.now)) }
{
    match expr {
        Expr::Number(n) => Ok(number(Fe::new(n.value))),
        Expr::Column(reference) => Ok(read_reference(outline, directory, firsts, home, reference)),
        Expr::Constant(name) => Ok(read_constant(outline, directory, name)),
        Expr::Public(name) => Ok(public(directory.public(outline, name).unwrap_or(0))),
        Expr::Neg(a) => {
            let a = read_expr(alloc, outline, directory, firsts, home, a.get())?;
            neg(alloc, a)
        }
        Expr::Group(a) => read_expr(alloc, outline, directory, firsts, home, a.get()),
        Expr::Add(a, b) => {
            let a = read_expr(alloc, outline, directory, firsts, home, a.get())?;
            let b = read_expr(alloc, outline, directory, firsts, home, b.get())?;
            add(alloc, a, b)
        }
        Expr::Sub(a, b) => {
            let a = read_expr(alloc, outline, directory, firsts, home, a.get())?;
            let b = read_expr(alloc, outline, directory, firsts, home, b.get())?;
            sub(alloc, a, b)
        }
        Expr::Mul(a, b) => {
            let a = read_expr(alloc, outline, directory, firsts, home, a.get())?;
            let b = read_expr(alloc, outline, directory, firsts, home, b.get())?;
            mul(alloc, a, b)
        }
    }
}
