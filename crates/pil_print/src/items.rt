//! The items of a namespace, each on a line of its own.
ghost use Rattle.std.specs.Prelude.{◌≡◌, [], ◌++◌, OnOk, map, All, codes, decimal, flat_map};
ghost use Rattle.pil_ast.specs.Tree.{term, tuples, line};
ghost use Rattle.pil_ast.specs.Term.{bus, constant, commit, inter, published, identity, lookup};
ghost use Rattle.pil_print.specs.Statements.{statement};
ghost use Rattle.pil_print.specs.Printed.{sentence_text, line_text};
ghost use Rattle.pil_print.specs.Tables.{IsNames, text_names};
ghost use Rattle.pil_print.specs.Levels.{IsPrintable, IsColumn, IsPrintableList, IsPrintableItem};

use crate::expressions::{Level, write_column, write_expr, write_index, write_name, write_number};
use crate::lists::{write_list, write_lists};
use crate::tables::Names;
use pil_ast::{Expr, Item, List};
use sqlite_items::Items;
use std::alloc::AllocError;

/// Writes `pol name = value`.
fn write_inter(
    names: &Names,
    name: &Items<u8>,
    value: &Expr,
    text: &mut Vec<u8>,
) -> Result<(), AllocError>
    requires names { IsNames names.now }
    requires printable { IsPrintable (text_names names.now) (term value.now) }
    ensures { OnOk result (text.new.items ≡ text.old.items ++ sentence_text (statement (text_names names.now) (inter name.now (term value.now)))) }
{
    text.extend_from_slice(b"pol ")?;
    text.extend_from_slice(name.as_slice())?;
    text.extend_from_slice(b" = ")?;
    write_expr(names, value, Level::Expr, text)
}

/// Writes `(row)`.
fn write_row(row: u32, text: &mut Vec<u8>) -> Result<(), AllocError>
    ensures { OnOk result (text.new.items ≡ text.old.items ++ (codes "(" ++ (decimal row ++ codes ")"))) }
{
    text.extend_from_slice(b"(")?;
    write_number(u64::from(row), text)?;
    text.extend_from_slice(b")")
}

/// Writes `public name = column(row)`.
fn write_public(
    names: &Names,
    name: &Items<u8>,
    space: u32,
    column: u32,
    row: u32,
    text: &mut Vec<u8>,
) -> Result<(), AllocError>
    requires names { IsNames names.now }
    requires printable { IsColumn (text_names names.now) space column }
    ensures { OnOk result (text.new.items ≡ text.old.items ++ sentence_text (statement (text_names names.now) (published name.now space column row))) }
{
    text.extend_from_slice(b"public ")?;
    text.extend_from_slice(name.as_slice())?;
    text.extend_from_slice(b" = ")?;
    write_column(names, space, column, false, text)?;
    write_row(row, text)
}

/// Writes `left = right`.
fn write_identity(
    names: &Names,
    left: &Expr,
    right: &Expr,
    text: &mut Vec<u8>,
) -> Result<(), AllocError>
    requires names { IsNames names.now }
    requires left { IsPrintable (text_names names.now) (term left.now) }
    requires right { IsPrintable (text_names names.now) (term right.now) }
    ensures { OnOk result (text.new.items ≡ text.old.items ++ sentence_text (statement (text_names names.now) (identity 0 (term left.now) (term right.now)))) }
{
    write_expr(names, left, Level::Expr, text)?;
    text.extend_from_slice(b" = ")?;
    write_expr(names, right, Level::Expr, text)
}

/// Writes `left in right`.
fn write_lookup(
    names: &Names,
    left: &List,
    right: &List,
    text: &mut Vec<u8>,
) -> Result<(), AllocError>
    requires names { IsNames names.now }
    requires left { IsPrintableList (text_names names.now) (tuples left.now) }
    requires right { IsPrintableList (text_names names.now) (tuples right.now) }
    ensures { OnOk result (text.new.items ≡ text.old.items ++ sentence_text (statement (text_names names.now) (lookup (tuples left.now) (tuples right.now)))) }
{
    write_list(names, left, text)?;
    text.extend_from_slice(b" in ")?;
    write_list(names, right, text)
}

/// Writes `left + .. is right + ..`.
fn write_bus(
    names: &Names,
    left: &[List],
    right: &[List],
    text: &mut Vec<u8>,
) -> Result<(), AllocError>
    requires names { IsNames names.now }
    requires left { All (IsPrintableList (text_names names.now)) (map tuples left.now) }
    requires right { All (IsPrintableList (text_names names.now)) (map tuples right.now) }
    ensures { OnOk result (text.new.items ≡ text.old.items ++ sentence_text (statement (text_names names.now) (bus (map tuples left.now) (map tuples right.now)))) }
{
    write_lists(names, left, text)?;
    text.extend_from_slice(b" is ")?;
    write_lists(names, right, text)
}

/// Writes `pol constant name[length]`.
fn write_constant(name: &Items<u8>, len: Option<u32>, text: &mut Vec<u8>) -> Result<(), AllocError>
    ensures { OnOk result (text.new.items ≡ text.old.items ++ sentence_text (statement [] (constant name.now len))) }
{
    text.extend_from_slice(b"pol constant ")?;
    text.extend_from_slice(name.as_slice())?;
    write_index(len, text)
}

/// Writes `pol commit name[length]`.
fn write_commit(name: &Items<u8>, len: Option<u32>, text: &mut Vec<u8>) -> Result<(), AllocError>
    ensures { OnOk result (text.new.items ≡ text.old.items ++ sentence_text (statement [] (commit name.now len))) }
{
    text.extend_from_slice(b"pol commit ")?;
    text.extend_from_slice(name.as_slice())?;
    write_index(len, text)
}

/// Writes an item without its `;`.
fn write_statement(names: &Names, item: &Item, text: &mut Vec<u8>) -> Result<(), AllocError>
    requires names { IsNames names.now }
    requires printable { IsPrintableItem (text_names names.now) (line item.now) }
    ensures { OnOk result (text.new.items ≡ text.old.items ++ sentence_text (statement (text_names names.now) (line item.now))) }
{
    match item {
        Item::Constant { name, len } => write_constant(name, *len, text),
        Item::Commit { name, len } => write_commit(name, *len, text),
        Item::Inter { name, value } => write_inter(names, name, value, text),
        Item::Public {
            name,
            space,
            column,
            row,
        } => write_public(names, name, *space, *column, *row, text),
        Item::Identity {
            space: _,
            left,
            right,
        } => write_identity(names, left, right, text),
        Item::Lookup { left, right } => write_lookup(names, left, right, text),
        Item::Bus { left, right } => write_bus(names, left.as_slice(), right.as_slice(), text),
    }
}

/// Ends a statement and its line.
fn end_line(text: &mut Vec<u8>) -> Result<(), AllocError>
    ensures { OnOk result (text.new.items ≡ text.old.items ++ codes ";\n") }
{
    text.extend_from_slice(b";\n")
}

/// Writes items, each on a line of its own.
pub fn write_items(names: &Names, items: &[Item], text: &mut Vec<u8>) -> Result<(), AllocError>
    requires names { IsNames names.now }
    requires printable { All (λ i. IsPrintableItem (text_names names.now) (line i)) items.now }
    ensures { OnOk result (text.new.items ≡ text.old.items ++ flat_map line_text (map (statement (text_names names.now)) (map line items.now))) }
{
    for item in items {
        write_statement(names, item, text)?;
        end_line(text)?;
    }
    Ok(())
}
