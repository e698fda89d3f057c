//! Outlines and maps of texts that are read.
use crate::directory::read_directory;
use crate::outline::{Draft, Outline, read_outline};
use pil_syntax::{Expr, Reference, Syntax, read_syntax};
use std::alloc::Global;
use std::test::Fail;

fn read(alloc: Global, text: &[u8]) -> Option<Syntax> {
    match pil_token::tokens(alloc, text) {
        Ok(tokens) => read_syntax(alloc, tokens.as_slice(), text.len() as u64).ok(),
        Err(_) => None,
    }
}

/// How many items the namespace with this number has.
fn item_count(outline: &Outline, home: usize) -> Option<usize> {
    match outline.homes.get(home) {
        Some(home) => Some(home.items.len()),
        None => None,
    }
}

/// How many constants a text has, and how many items each of its first three namespaces.
fn counts(alloc: Global, text: &[u8]) -> Option<(usize, [Option<usize>; 3])> {
    let syntax = read(alloc, text)?;
    let outline = read_outline(alloc, &syntax).ok()?;
    let items = [
        item_count(&outline, 0),
        item_count(&outline, 1),
        item_count(&outline, 2),
    ];
    Some((outline.constants.len(), items))
}

/// The least place of a repeated name; None where the text isn't read.
fn repeated(alloc: Global, text: &[u8]) -> Option<Option<u64>> {
    let syntax = read(alloc, text)?;
    let outline = read_outline(alloc, &syntax).ok()?;
    if !outline.is_countable() {
        return None;
    }
    let (_, repeated) = read_directory(alloc, &outline).ok()?;
    Some(repeated)
}

/// The rows of the first namespace.
fn rows(alloc: Global, text: &[u8]) -> Option<u64> {
    let syntax = read(alloc, text)?;
    let outline = read_outline(alloc, &syntax).ok()?;
    if !outline.is_countable() {
        return None;
    }
    let (directory, _) = read_directory(alloc, &outline).ok()?;
    match outline.homes.get(0) {
        Some(home) => Some(directory.rows(&outline, home.size)),
        None => None,
    }
}

/// The polynomial that is the last item of the namespace with this number.
fn last_reference<'a>(outline: &Outline<'a>, home: usize) -> Option<&'a Reference> {
    match outline.homes.get(home)?.items.as_slice().last()? {
        Draft::Intermediate { value, .. } => match *value {
            Expr::Column(reference) => Some(reference),
            _ => None,
        },
        _ => None,
    }
}

/// The namespace and the item that the last item of a text's second namespace stands for.
fn named(alloc: Global, text: &[u8]) -> Option<(Option<u32>, Option<u32>)> {
    let syntax = read(alloc, text)?;
    let outline = read_outline(alloc, &syntax).ok()?;
    if !outline.is_countable() {
        return None;
    }
    let (directory, _) = read_directory(alloc, &outline).ok()?;
    let reference = last_reference(&outline, 1)?;
    match directory.home(&outline, 1, &reference.space) {
        Some(home) => Some((Some(home), directory.item(&outline, home, reference))),
        None => Some((None, None)),
    }
}

#[test]
fn outlines_each_namespace(rt: HostRuntime) -> Result<(), Fail> {
    let text =
        b"constant %n = 8; namespace A(%n); pol constant k; pol commit x, y[2]; pol z = x + 1; public p = y[1](3); x = z; namespace B(4); constant %m = 2; pol commit x; x { x } in { A.k }; { x } is { A.x };";
    assert_eq!(rt;
        counts(rt.alloc(), text),
        Some((2, [Some(6), Some(3), None]))
    );
    assert_eq!(rt; counts(rt.alloc(), b""), Some((0, [None, None, None])));
    Ok(())
}

#[test]
fn tells_the_least_place_of_a_repeated_name(rt: HostRuntime) -> Result<(), Fail> {
    assert_eq!(rt;
        repeated(
            rt.alloc(),
            b"constant %a = 1; constant %b = 2; constant %b = 3; constant %a = 4;"
        ),
        Some(Some(44))
    );
    assert_eq!(rt;
        repeated(
            rt.alloc(),
            b"namespace A(2); namespace B(2); namespace A(2);"
        ),
        Some(Some(42))
    );
    assert_eq!(rt;
        repeated(
            rt.alloc(),
            b"namespace A(2); pol commit x; public p = x(0); namespace B(2); pol commit x; public p = x(1);"
        ),
        Some(Some(84))
    );
    assert_eq!(rt;
        repeated(
            rt.alloc(),
            b"namespace A(2); pol commit x[2]; pol x = 1; namespace A(2);"
        ),
        Some(Some(37))
    );
    assert_eq!(rt;
        repeated(
            rt.alloc(),
            b"constant %A = 1; namespace A(2); pol commit A; public A = A(0); namespace B(2); pol commit A;"
        ),
        Some(None)
    );
    Ok(())
}

#[test]
fn finds_the_first_declaration(rt: HostRuntime) -> Result<(), Fail> {
    assert_eq!(rt;
        rows(
            rt.alloc(),
            b"constant %n = 16; constant %m = 8; constant %n = 4; namespace A(%n);"
        ),
        Some(16)
    );
    assert_eq!(rt; rows(rt.alloc(), b"namespace A(%n);"), Some(0));
    assert_eq!(rt;
        named(
            rt.alloc(),
            b"namespace A(2); pol commit x, y; namespace B(2); pol commit x; pol z = A.y;"
        ),
        Some((Some(0), Some(1)))
    );
    assert_eq!(rt;
        named(
            rt.alloc(),
            b"namespace A(2); pol commit x, y; namespace B(2); x = 1; pol commit x; pol z = x;"
        ),
        Some((Some(1), Some(1)))
    );
    assert_eq!(rt;
        named(
            rt.alloc(),
            b"namespace A(2); pol commit x; namespace B(2); pol z = x;"
        ),
        Some((Some(1), None))
    );
    assert_eq!(rt;
        named(
            rt.alloc(),
            b"namespace A(2); pol commit x; namespace B(2); pol z = C.x;"
        ),
        Some((None, None))
    );
    Ok(())
}
