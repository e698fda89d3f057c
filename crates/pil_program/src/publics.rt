//! Whether a text names a public.
ghost use Rattle.std.specs.Prelude.{◌≡◌, ℕ, true, map, option_map, All};
ghost use Rattle.pil_ast.specs.Tree.{term, tuples as list_of, line as line_of, namespaces};
ghost use Rattle.pil_ast.specs.Term.{item_at};
ghost use Rattle.pil_program.specs.Publics.{NoPublic, NoneInSelector, NoneInList, NoneInItem, NoneIsNamed};

use pil_ast::{Expr, Item, List, Pil};

/// Whether an expression is known to name no public.
fn none_in(expr: &Expr) -> bool
    ensures { result ≡ true → NoPublic (term expr.now) }
{
    match expr {
        Expr::Number(_) => true,
        Expr::Column { .. } => true,
        Expr::Inter { .. } => true,
        Expr::Public(_) => false,
        Expr::Neg(a) => none_in(a.get()),
        Expr::Add(a, b) => none_in(a.get()) && none_in(b.get()),
        Expr::Sub(a, b) => none_in(a.get()) && none_in(b.get()),
        Expr::Mul(a, b) => none_in(a.get()) && none_in(b.get()),
    }
}

/// Whether no expression of some names a public.
fn none_in_exprs(exprs: &[Expr]) -> bool
    ensures { result ≡ true → All NoPublic (map term exprs.now) }
{
    for expr in exprs {
        if !none_in(expr) {
            return false;
        }
    }
    true
}

/// Whether a selector names no public.
fn none_in_selector(sel: &Option<Expr>) -> bool
    ensures { result ≡ true → NoneInSelector (option_map term sel.now) }
{
    match sel {
        Some(expr) => none_in(expr),
        None => true,
    }
}

/// Whether a list names no public.
fn none_in_list(list: &List) -> bool
    ensures { result ≡ true → NoneInList (list_of list.now) }
{
    none_in_selector(&list.sel) && none_in_exprs(list.exprs.as_slice())
}

/// Whether no list of some names a public.
fn none_in_lists(lists: &[List]) -> bool
    ensures { result ≡ true → All NoneInList (map list_of lists.now) }
{
    for list in lists {
        if !none_in_list(list) {
            return false;
        }
    }
    true
}

/// Whether an item names no public.
fn none_in_item(item: &Item) -> bool
    ensures { result ≡ true → NoneInItem (line_of item.now) }
{
    match item {
        Item::Inter { name: _, value } => none_in(value),
        Item::Identity {
            space: _,
            left,
            right,
        } => none_in(left) && none_in(right),
        Item::Lookup { left, right } => none_in_list(left) && none_in_list(right),
        Item::Bus { left, right } => {
            none_in_lists(left.as_slice()) && none_in_lists(right.as_slice())
        }
        _ => true,
    }
}

/// Whether no item of some names a public.
fn none_in_items(items: &[Item]) -> bool
    ensures { result ≡ true → (k : ℕ) → NoneInItem (item_at (map line_of items.now) k) }
{
    for item in items {
        if !none_in_item(item) {
            return false;
        }
    }
    true
}

/// Whether no expression of a text names a public.
pub fn names_no_public(pil: &Pil) -> bool
    ensures { result ≡ true → NoneIsNamed (namespaces pil.now) }
{
    for space in pil.spaces.as_slice() {
        if !none_in_items(space.items.as_slice()) {
            return false;
        }
    }
    true
}
