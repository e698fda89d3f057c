//! Lists of columns that are the same.
ghost use Rattle.std.specs.Prelude.{◌≡◌, true, map};
ghost use Rattle.pil_ast.specs.Tree.{term, tuples as list_of};

use pil_ast::{Expr, List};

/// Whether two expressions are the same column.
fn same_column(a: &Expr, b: &Expr) -> bool
    ensures { result ≡ true → term a.now ≡ term b.now }
{
    match a {
        Expr::Column {
            space,
            column,
            next,
        } => match b {
            Expr::Column {
                space: home,
                column: number,
                next: marked,
            } => *space == *home && *column == *number && *next == *marked,
            _ => false,
        },
        _ => false,
    }
}

/// Whether expressions are the same columns in order.
fn same_columns(a: &[Expr], b: &[Expr]) -> bool
    ensures { result ≡ true → map term a.now ≡ map term b.now }
{
    if a.len() != b.len() {
        return false;
    }
    for place in 0..a.len() {
        if !same_column(&a[place], &b[place]) {
            return false;
        }
    }
    true
}

/// Whether two lists are known to be the same: both are of the same columns alone, without a selector.
pub fn same_list(a: &List, b: &List) -> bool
    ensures { result ≡ true → list_of a.now ≡ list_of b.now }
{
    if a.sel.is_some() || b.sel.is_some() || a.space != b.space {
        return false;
    }
    same_columns(a.exprs.as_slice(), b.exprs.as_slice())
}

/// A number that the columns of equal expressions share and others mostly don't.
fn code_of_column(expr: &Expr) -> u64 {
    match expr {
        Expr::Column {
            space: _,
            column,
            next,
        } => *column as u64 * 2 + if *next { 1 } else { 0 },
        _ => u64::MAX,
    }
}

/// A number that equal lists of columns share and others mostly don't.
pub fn code(list: &List) -> u64 {
    let mut code = list.space as u64;
    for expr in list.exprs.as_slice() {
        code = (code ^ code_of_column(expr)).wrapping_mul(0x9e37_79b9_7f4a_7c15);
    }
    code
}
