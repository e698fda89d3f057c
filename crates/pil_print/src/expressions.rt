//! Names, references and expressions.
ghost use Rattle.std.specs.Prelude.{◌≡◌, ◌<◌, ◌++◌, length, option_map, codes, OnOk, decimal};
ghost use Rattle.pil_ast.specs.Tree.{term, line};
ghost use Rattle.pil_ast.specs.Term.{item_at};
ghost use Rattle.pil_syntax.specs.Printing.{dressed};
ghost use Rattle.pil_print.specs.Statements.{name_of, index_in, mark_of, reference_to, column_reference, inter_reference, numeral, published, named};
ghost use Rattle.pil_print.specs.Printed.{index_text, next_text, reference_text, term_text};
ghost use Rattle.pil_print.specs.Tables.{IsNames, text_names};
ghost use Rattle.pil_print.specs.Levels.{level_of, IsPrintable, opened, closed, groups_sum as groups_sum_at, groups_product as groups_product_at, IsColumn, IsItemNumber};

use crate::tables::Names;
use itoa::Buffer;
use pil_ast::{Expr, Item};
use std::alloc::AllocError;

/// What may stand at a place without parentheses: an expression, a term or a fact.
#[derive(Clone, Copy)]
pub enum Level {
    Expr,
    Term,
    Fact,
}

/// Whether a sum has parentheses there.
fn groups_sum(level: Level) -> bool
    ensures { result ≡ groups_sum_at (level_of level) }
{
    !matches!(level, Level::Expr)
}

/// Whether a product has parentheses there.
fn groups_product(level: Level) -> bool
    ensures { result ≡ groups_product_at (level_of level) }
{
    matches!(level, Level::Fact)
}

/// Writes `(`, where the parentheses are wanted.
fn open(wanted: bool, text: &mut Vec<u8>) -> Result<(), AllocError>
    ensures { OnOk result (text.new.items ≡ text.old.items ++ opened wanted) }
{
    if wanted {
        text.extend_from_slice(b"(")
    } else {
        Ok(())
    }
}

/// Writes `)`, where the parentheses are wanted.
fn close(wanted: bool, text: &mut Vec<u8>) -> Result<(), AllocError>
    ensures { OnOk result (text.new.items ≡ text.old.items ++ closed wanted) }
{
    if wanted {
        text.extend_from_slice(b")")
    } else {
        Ok(())
    }
}

/// Writes a number in decimal.
pub fn write_number(number: u64, text: &mut Vec<u8>) -> Result<(), AllocError>
    ensures { OnOk result (text.new.items ≡ text.old.items ++ decimal number) }
{
    text.extend_from_slice(Buffer::new().format(number).as_bytes())
}

/// Writes the name that an item declares.
pub fn write_name(item: &Item, text: &mut Vec<u8>) -> Result<(), AllocError>
    ensures { OnOk result (text.new.items ≡ text.old.items ++ name_of (line item.now)) }
{
    match item {
        Item::Constant { name, len: _ } => text.extend_from_slice(name.as_slice()),
        Item::Commit { name, len: _ } => text.extend_from_slice(name.as_slice()),
        Item::Inter { name, value: _ } => text.extend_from_slice(name.as_slice()),
        Item::Public {
            name,
            space: _,
            column: _,
            row: _,
        } => text.extend_from_slice(name.as_slice()),
        Item::Identity { .. } | Item::Lookup { .. } | Item::Bus { .. } => Ok(()),
    }
}

/// Writes `[number]`, where there is one.
pub fn write_index(number: Option<u32>, text: &mut Vec<u8>) -> Result<(), AllocError>
    ensures { OnOk result (text.new.items ≡ text.old.items ++ index_text (option_map numeral number)) }
{
    match number {
        Some(number) => {
            text.extend_from_slice(b"[")?;
            write_number(u64::from(number), text)?;
            text.extend_from_slice(b"]")
        }
        None => Ok(()),
    }
}

/// The index with which the column stands, where its item is an array.
fn index_of(item: &Item, index: u32) -> Option<u32>
    ensures { option_map numeral result ≡ index_in (line item.now) index }
{
    match item {
        Item::Constant {
            name: _,
            len: Some(_),
        } => Some(index),
        Item::Commit {
            name: _,
            len: Some(_),
        } => Some(index),
        _ => None,
    }
}

/// Writes `'` for the next row.
fn write_mark(next: bool, text: &mut Vec<u8>) -> Result<(), AllocError>
    ensures { OnOk result (text.new.items ≡ text.old.items ++ next_text (mark_of next)) }
{
    if next {
        text.extend_from_slice(b"'")
    } else {
        Ok(())
    }
}

/// Writes `space.name[index]'`.
fn write_reference(
    names: &Names,
    space: u32,
    item: &Item,
    index: Option<u32>,
    next: bool,
    text: &mut Vec<u8>,
) -> Result<(), AllocError>
    requires { space < length (text_names names.now) }
    ensures { OnOk result (text.new.items ≡ text.old.items ++ reference_text (reference_to (text_names names.now) space (line item.now) (option_map numeral index) next)) }
{
    text.extend_from_slice(names.spaces[space as usize].name.as_slice())?;
    text.extend_from_slice(b".")?;
    write_name(item, text)?;
    write_index(index, text)?;
    write_mark(next, text)?;
    Ok(())
}

/// Writes a column of the namespace `space`.
pub fn write_column(
    names: &Names,
    space: u32,
    column: u32,
    next: bool,
    text: &mut Vec<u8>,
) -> Result<(), AllocError>
    requires names { IsNames names.now }
    requires column { IsColumn (text_names names.now) space column }
    ensures { OnOk result (text.new.items ≡ text.old.items ++ reference_text (column_reference (text_names names.now) space column next)) }
{
    let spot = names.columns.as_slice()[space as usize].spot(column);
    write_reference(
        names,
        space,
        spot.item,
        index_of(spot.item, spot.index),
        next,
        text,
    )
}

/// Writes the intermediate that is this item of the namespace `space`.
fn write_inter(
    names: &Names,
    space: u32,
    item: u32,
    next: bool,
    text: &mut Vec<u8>,
) -> Result<(), AllocError>
    requires { IsItemNumber (text_names names.now) space item }
    ensures { OnOk result (text.new.items ≡ text.old.items ++ reference_text (inter_reference (text_names names.now) space item next)) }
{
    let declared = &names.spaces[space as usize].items.as_slice()[item as usize];
    write_reference(names, space, declared, None, next, text)
}

/// Writes `:name`.
fn write_public(names: &Names, number: u32, text: &mut Vec<u8>) -> Result<(), AllocError>
    requires names { IsNames names.now }
    requires number { number < length (published (text_names names.now)) }
    ensures { OnOk result (text.new.items ≡ text.old.items ++ (codes ":" ++ name_of (item_at (published (text_names names.now)) number))) }
{
    text.extend_from_slice(b":")?;
    write_name(names.publics.as_slice()[number as usize], text)?;
    Ok(())
}

/// Writes an expression with the parentheses that it needs at a place of this level.
pub fn write_expr(
    names: &Names,
    expr: &Expr,
    level: Level,
    text: &mut Vec<u8>,
) -> Result<(), AllocError>
    requires names { IsNames names.now }
    requires printable { IsPrintable (text_names names.now) (term expr.now) }
    ensures { OnOk result (text.new.items ≡ text.old.items ++ term_text (dressed (level_of level) (named (text_names names.now) (term expr.now)))) }
{
    match expr {
        Expr::Number(number) => write_number(number.value(), text),
        Expr::Column {
            space,
            column,
            next,
        } => write_column(names, *space, *column, *next, text),
        Expr::Inter { space, item, next } => write_inter(names, *space, *item, *next, text),
        Expr::Public(number) => write_public(names, *number, text),
        Expr::Neg(a) => {
            text.extend_from_slice(b"-")?;
            write_expr(names, a.get(), Level::Fact, text)?;
            Ok(())
        }
        Expr::Add(a, b) => {
            open(groups_sum(level), text)?;
            write_expr(names, a.get(), Level::Expr, text)?;
            text.extend_from_slice(b" + ")?;
            write_expr(names, b.get(), Level::Term, text)?;
            close(groups_sum(level), text)?;
            Ok(())
        }
        Expr::Sub(a, b) => {
            open(groups_sum(level), text)?;
            write_expr(names, a.get(), Level::Expr, text)?;
            text.extend_from_slice(b" - ")?;
            write_expr(names, b.get(), Level::Term, text)?;
            close(groups_sum(level), text)?;
            Ok(())
        }
        Expr::Mul(a, b) => {
            open(groups_product(level), text)?;
            write_expr(names, a.get(), Level::Term, text)?;
            text.extend_from_slice(b" * ")?;
            write_expr(names, b.get(), Level::Fact, text)?;
            close(groups_product(level), text)?;
            Ok(())
        }
    }
}
