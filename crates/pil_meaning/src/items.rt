//! Items with numbers in place of names.
ghost use Rattle.std.specs.Prelude.{◌≡◌, map, All, option_map, IfOk};
ghost use Rattle.pil_syntax.specs.Shown.{term as term_of, tuple, filter_of};
ghost use Rattle.pil_ast.specs.Tree.{term, line, tuples};
ghost use Rattle.pil_ast.specs.Term.{constant, commit};
ghost use Rattle.pil_names.specs.Shown.{outlined, draft};
ghost use Rattle.pil_names.specs.Outline.{defined, published, equal, inside, against};
ghost use Rattle.pil_names.specs.Directory.{IsDirectory};
ghost use Rattle.pil_meaning.specs.Meaning.{length_number, read_term, read_filter, read_tuple, read_draft};
ghost use Rattle.pil_meaning.specs.Firsts.{firsts_of};
ghost use Rattle.pil_meaning.specs.Fitting.{FitsTerm, FitsSelector, FitsList, FitsLength, FitsLine};

use crate::expressions::{column_number, read_expr, read_reference};
use pil_ast::{Item, List};
use pil_names::{Directory, Draft, Outline, home_of_identity, home_of_list};
use pil_syntax::{ColumnKind, Declaration, Expr, ExprList, Ident, Number, Reference, Selector};
use sqlite_items::Items;
use std::alloc::{AllocError, Global};

/// An array's length, where there is one.
fn read_length(length: &Option<Number>) -> Option<u32>
    requires { FitsLength (length_number length.now) }
    ensures { result ≡ length_number length.now }
{
    match length {
        Some(number) => Some(number.value as u32),
        None => None,
    }
}

/// `pol constant declaration;`
fn read_constant(alloc: Global, declaration: &Declaration) -> Result<Item, AllocError>
    requires { FitsLength (length_number declaration.now.length) }
    ensures { IfOk result (λ item. line item ≡ constant declaration.now.name.name (length_number declaration.now.length)) }
{
    let name = Items::from_slice(alloc, declaration.name.name.bytes())?;
    let len = read_length(&declaration.length);
    Ok(Item::Constant { name, len })
}

/// `pol commit declaration;`
fn read_commit(alloc: Global, declaration: &Declaration) -> Result<Item, AllocError>
    requires { FitsLength (length_number declaration.now.length) }
    ensures { IfOk result (λ item. line item ≡ commit declaration.now.name.name (length_number declaration.now.length)) }
{
    let name = Items::from_slice(alloc, declaration.name.name.bytes())?;
    let len = read_length(&declaration.length);
    Ok(Item::Commit { name, len })
}

/// The expressions of a list that stands in the namespace `home`.
fn read_exprs(
    alloc: Global,
    outline: &Outline,
    directory: &Directory,
    firsts: &[Items<Option<u32>>],
    home: u32,
    exprs: &[Expr],
) -> Result<Items<pil_ast::Expr>, AllocError>
    requires listed { IsDirectory (outlined outline.now) directory.now }
    requires firsts { firsts.now ≡ firsts_of (outlined outline.now) }
    requires fits { All (λ e. FitsTerm (read_term (outlined outline.now) home (term_of e))) exprs.now }
    ensures { IfOk result (λ es. map term es ≡ map (λ e. read_term (outlined outline.now) home (term_of e)) exprs.now) }
{
    let mut read = Items::new(alloc);
    for expr in exprs {
        read.push(read_expr(alloc, outline, directory, firsts, home, expr)?)?;
    }
    Ok(read)
}

/// The selector of a list that stands in the namespace `home`.
fn read_selector(
    alloc: Global,
    outline: &Outline,
    directory: &Directory,
    firsts: &[Items<Option<u32>>],
    home: u32,
    selector: &Selector,
) -> Result<Option<pil_ast::Expr>, AllocError>
    requires listed { IsDirectory (outlined outline.now) directory.now }
    requires firsts { firsts.now ≡ firsts_of (outlined outline.now) }
    requires fits { FitsSelector (read_filter (outlined outline.now) home (filter_of selector.now)) }
    ensures { IfOk result (λ sel. option_map term sel ≡ read_filter (outlined outline.now) home (filter_of selector.now)) }
{
    match selector {
        Selector::Every => Ok(None),
        Selector::Column(reference) => {
            let column = read_reference(outline, directory, firsts, home, reference);
            Ok(Some(column))
        }
        Selector::Group(expr) => {
            let expr = read_expr(alloc, outline, directory, firsts, home, expr)?;
            Ok(Some(expr))
        }
    }
}

/// A list that stands in the namespace `home`.
fn read_list(
    alloc: Global,
    outline: &Outline,
    directory: &Directory,
    firsts: &[Items<Option<u32>>],
    home: u32,
    list: &ExprList,
) -> Result<List, AllocError>
    requires listed { IsDirectory (outlined outline.now) directory.now }
    requires firsts { firsts.now ≡ firsts_of (outlined outline.now) }
    requires fits { FitsList (read_tuple (outlined outline.now) home (tuple list.now)) }
    ensures { IfOk result (λ l. tuples l ≡ read_tuple (outlined outline.now) home (tuple list.now)) }
{
    let space = home_of_list(outline, directory, home, list);
    let sel = read_selector(alloc, outline, directory, firsts, home, &list.selector)?;
    let entries = list.entries.as_slice();
    let exprs = read_exprs(alloc, outline, directory, firsts, home, entries)?;
    Ok(List { space, sel, exprs })
}

/// The lists of a side of an `is` that stands in the namespace `home`.
fn read_lists(
    alloc: Global,
    outline: &Outline,
    directory: &Directory,
    firsts: &[Items<Option<u32>>],
    home: u32,
    lists: &[ExprList],
) -> Result<Items<List>, AllocError>
    requires listed { IsDirectory (outlined outline.now) directory.now }
    requires firsts { firsts.now ≡ firsts_of (outlined outline.now) }
    requires fits { All (λ l. FitsList (read_tuple (outlined outline.now) home (tuple l))) lists.now }
    ensures { IfOk result (λ ls. map tuples ls ≡ map (λ l. read_tuple (outlined outline.now) home (tuple l)) lists.now) }
{
    let mut read = Items::new(alloc);
    for list in lists {
        read.push(read_list(alloc, outline, directory, firsts, home, list)?)?;
    }
    Ok(read)
}

/// `pol name = value;` in the namespace `home`.
fn read_inter(
    alloc: Global,
    outline: &Outline,
    directory: &Directory,
    firsts: &[Items<Option<u32>>],
    home: u32,
    name: &Ident,
    value: &Expr,
) -> Result<Item, AllocError>
    requires listed { IsDirectory (outlined outline.now) directory.now }
    requires firsts { firsts.now ≡ firsts_of (outlined outline.now) }
    requires fits { FitsLine (read_draft (outlined outline.now) home (defined name.now (term_of value.now))) }
    ensures { IfOk result (λ item. line item ≡ read_draft (outlined outline.now) home (defined name.now (term_of value.now))) }
{
    let name = Items::from_slice(alloc, name.name.bytes())?;
    let value = read_expr(alloc, outline, directory, firsts, home, value)?;
    Ok(Item::Inter { name, value })
}

/// `public name = reference(row);` in the namespace `home`.
fn read_public(
    alloc: Global,
    outline: &Outline,
    directory: &Directory,
    firsts: &[Items<Option<u32>>],
    home: u32,
    name: &Ident,
    reference: &Reference,
    row: Number,
) -> Result<Item, AllocError>
    requires listed { IsDirectory (outlined outline.now) directory.now }
    requires firsts { firsts.now ≡ firsts_of (outlined outline.now) }
    requires fits { FitsLine (read_draft (outlined outline.now) home (published name.now reference.now row)) }
    ensures { IfOk result (λ item. line item ≡ read_draft (outlined outline.now) home (published name.now reference.now row)) }
{
    let name = Items::from_slice(alloc, name.name.bytes())?;
    let space = directory
        .home(outline, home, &reference.space)
        .unwrap_or(home);
    let column = read_reference(outline, directory, firsts, home, reference);
    Ok(Item::Public {
        name,
        space,
        column: column_number(&column),
        row: row.value as u32,
    })
}

/// `left = right;` in the namespace `home`.
fn read_identity(
    alloc: Global,
    outline: &Outline,
    directory: &Directory,
    firsts: &[Items<Option<u32>>],
    home: u32,
    left: &Expr,
    right: &Expr,
) -> Result<Item, AllocError>
    requires listed { IsDirectory (outlined outline.now) directory.now }
    requires firsts { firsts.now ≡ firsts_of (outlined outline.now) }
    requires fits { FitsLine (read_draft (outlined outline.now) home (equal (term_of left.now) (term_of right.now))) }
    ensures { IfOk result (λ item. line item ≡ read_draft (outlined outline.now) home (equal (term_of left.now) (term_of right.now))) }
{
    let space = home_of_identity(outline, directory, home, left, right);
    let left = read_expr(alloc, outline, directory, firsts, home, left)?;
    let right = read_expr(alloc, outline, directory, firsts, home, right)?;
    Ok(Item::Identity { space, left, right })
}

/// `left in right;` in the namespace `home`.
fn read_lookup(
    alloc: Global,
    outline: &Outline,
    directory: &Directory,
    firsts: &[Items<Option<u32>>],
    home: u32,
    left: &ExprList,
    right: &ExprList,
) -> Result<Item, AllocError>
    requires listed { IsDirectory (outlined outline.now) directory.now }
    requires firsts { firsts.now ≡ firsts_of (outlined outline.now) }
    requires fits { FitsLine (read_draft (outlined outline.now) home (inside (tuple left.now) (tuple right.now))) }
    ensures { IfOk result (λ item. line item ≡ read_draft (outlined outline.now) home (inside (tuple left.now) (tuple right.now))) }
{
    let left = read_list(alloc, outline, directory, firsts, home, left)?;
    let right = read_list(alloc, outline, directory, firsts, home, right)?;
    Ok(Item::Lookup { left, right })
}

/// `left + .. is right + ..;` in the namespace `home`.
fn read_bus(
    alloc: Global,
    outline: &Outline,
    directory: &Directory,
    firsts: &[Items<Option<u32>>],
    home: u32,
    left: &[ExprList],
    right: &[ExprList],
) -> Result<Item, AllocError>
    requires listed { IsDirectory (outlined outline.now) directory.now }
    requires firsts { firsts.now ≡ firsts_of (outlined outline.now) }
    requires fits { FitsLine (read_draft (outlined outline.now) home (against (map tuple left.now) (map tuple right.now))) }
    ensures { IfOk result (λ item. line item ≡ read_draft (outlined outline.now) home (against (map tuple left.now) (map tuple right.now))) }
{
    let left = read_lists(alloc, outline, directory, firsts, home, left)?;
    let right = read_lists(alloc, outline, directory, firsts, home, right)?;
    Ok(Item::Bus { left, right })
}

/// An item of the namespace `home`.
fn read_item(
    alloc: Global,
    outline: &Outline,
    directory: &Directory,
    firsts: &[Items<Option<u32>>],
    home: u32,
    item: &Draft,
) -> Result<Item, AllocError>
    requires listed { IsDirectory (outlined outline.now) directory.now }
    requires firsts { firsts.now ≡ firsts_of (outlined outline.now) }
    requires fits { FitsLine (read_draft (outlined outline.now) home (draft item.now)) }
    ensures { IfOk result (λ i. line i ≡ read_draft (outlined outline.now) home (draft item.now)) }
{
    match item {
        Draft::Column {
            kind: ColumnKind::Constant,
            declaration,
        } => read_constant(alloc, declaration),
        Draft::Column {
            kind: ColumnKind::Commit,
            declaration,
        } => read_commit(alloc, declaration),
        Draft::Intermediate { name, value } => {
            read_inter(alloc, outline, directory, firsts, home, name, value)
        }
        Draft::Public { name, column, row } => {
            read_public(alloc, outline, directory, firsts, home, name, column, *row)
        }
        Draft::Identity { left, right } => {
            read_identity(alloc, outline, directory, firsts, home, left, right)
        }
        Draft::Lookup { left, right } => {
            read_lookup(alloc, outline, directory, firsts, home, left, right)
        }
        Draft::Bus { left, right } => {
            read_bus(alloc, outline, directory, firsts, home, left, right)
        }
    }
}

/// The items of the namespace `home`.
pub fn read_items(
    alloc: Global,
    outline: &Outline,
    directory: &Directory,
    firsts: &[Items<Option<u32>>],
    home: u32,
    items: &[Draft],
) -> Result<Items<Item>, AllocError>
    requires listed { IsDirectory (outlined outline.now) directory.now }
    requires firsts { firsts.now ≡ firsts_of (outlined outline.now) }
    requires fits { All (λ d. FitsLine (read_draft (outlined outline.now) home (draft d))) items.now }
    ensures { IfOk result (λ is. map line is ≡ map (λ d. read_draft (outlined outline.now) home (draft d)) items.now) }
{
    let mut read = Items::new(alloc);
    for item in items {
        read.push(read_item(alloc, outline, directory, firsts, home, item)?)?;
    }
    Ok(read)
}
