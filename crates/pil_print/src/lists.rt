//! Lists with their selectors.
ghost use Rattle.std.specs.Prelude.{◌≡◌, ◌++◌, [], cond, OnOk, map, All, codes, option_map, Some};
ghost use Rattle.pil_ast.specs.Tree.{term, tuples};
ghost use Rattle.pil_print.specs.Statements.{expression, selector as selector_in, tuple};
ghost use Rattle.pil_print.specs.Printed.{term_text, filter_text, separated, tuple_text};
ghost use Rattle.pil_print.specs.Tables.{IsNames, text_names};
ghost use Rattle.pil_print.specs.Levels.{IsPrintable, IsSelector, IsPrintableList};

use crate::expressions::{Level, write_expr};
use crate::tables::Names;
use pil_ast::{Expr, List};
use std::alloc::AllocError;

/// Writes what stands between two elements, but nothing before the first.
fn separate(first: bool, between: &[u8], text: &mut Vec<u8>) -> Result<(), AllocError>
    ensures { OnOk result (text.new.items ≡ text.old.items ++ cond first [] between.now) }
{
    if first {
        Ok(())
    } else {
        text.extend_from_slice(between)
    }
}

/// Writes expressions with `, ` between.
fn write_exprs(names: &Names, exprs: &[Expr], text: &mut Vec<u8>) -> Result<(), AllocError>
    requires names { IsNames names.now }
    requires printable { All (λ e. IsPrintable (text_names names.now) (term e)) exprs.now }
    ensures { OnOk result (text.new.items ≡ text.old.items ++ separated (codes ", ") term_text (map (expression (text_names names.now)) (map term exprs.now))) }
{
    let mut first = true;
    for expr in exprs {
        separate(first, b", ", text)?;
        write_expr(names, expr, Level::Expr, text)?;
        first = false;
    }
    Ok(())
}

/// Writes a selector and a space: a reference, or an expression in parentheses.
fn write_selector(names: &Names, selector: &Expr, text: &mut Vec<u8>) -> Result<(), AllocError>
    requires names { IsNames names.now }
    requires printable { IsPrintable (text_names names.now) (term selector.now) }
    ensures { OnOk result (text.new.items ≡ text.old.items ++ filter_text (selector_in (text_names names.now) (Some (term selector.now)))) }
{
    match selector {
        Expr::Column { .. } | Expr::Inter { .. } => {
            write_expr(names, selector, Level::Expr, text)?;
            text.extend_from_slice(b" ")
        }
        _ => {
            text.extend_from_slice(b"(")?;
            write_expr(names, selector, Level::Expr, text)?;
            text.extend_from_slice(b") ")
        }
    }
}

/// Writes a list's selector, where it has one.
fn write_filter(
    names: &Names,
    selector: &Option<Expr>,
    text: &mut Vec<u8>,
) -> Result<(), AllocError>
    requires names { IsNames names.now }
    requires printable { IsSelector (text_names names.now) (option_map term selector.now) }
    ensures { OnOk result (text.new.items ≡ text.old.items ++ filter_text (selector_in (text_names names.now) (option_map term selector.now))) }
{
    match selector {
        Some(selector) => write_selector(names, selector, text),
        None => Ok(()),
    }
}

/// Writes `selector {expression, ..}`.
pub fn write_list(names: &Names, list: &List, text: &mut Vec<u8>) -> Result<(), AllocError>
    requires names { IsNames names.now }
    requires printable { IsPrintableList (text_names names.now) (tuples list.now) }
    ensures { OnOk result (text.new.items ≡ text.old.items ++ tuple_text (tuple (text_names names.now) (tuples list.now))) }
{
    write_filter(names, &list.sel, text)?;
    text.extend_from_slice(b"{")?;
    write_exprs(names, list.exprs.as_slice(), text)?;
    text.extend_from_slice(b"}")
}

/// Writes lists with ` + ` between.
pub fn write_lists(names: &Names, lists: &[List], text: &mut Vec<u8>) -> Result<(), AllocError>
    requires names { IsNames names.now }
    requires printable { All (λ l. IsPrintableList (text_names names.now) (tuples l)) lists.now }
    ensures { OnOk result (text.new.items ≡ text.old.items ++ separated (codes " + ") tuple_text (map (tuple (text_names names.now)) (map tuples lists.now))) }
{
    let mut first = true;
    for list in lists {
        separate(first, b" + ", text)?;
        write_list(names, list, text)?;
        first = false;
    }
    Ok(())
}
