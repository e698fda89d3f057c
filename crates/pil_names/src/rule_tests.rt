//! Places at which names, sizes and widths are wrong.
use crate::directory::read_directory;
use crate::mixed::least_mixed;
use crate::outline::read_outline;
use crate::rows::least_bad_row;
use crate::unknown::least_unknown;
use crate::widths::least_wrong_width;
use pil_syntax::{Syntax, read_syntax};
use std::alloc::Global;
use std::test::Fail;

/// The least place at which each rule is broken.
#[derive(Clone, Copy, Debug, PartialEq, Eq)]
struct LeastPlaces {
    unknown: Option<u64>,
    bad_row: Option<u64>,
    mixed: Option<u64>,
    wrong_width: Option<u64>,
}

fn read(alloc: Global, text: &[u8]) -> Option<Syntax> {
    match pil_token::tokens(alloc, text) {
        Ok(tokens) => read_syntax(alloc, tokens.as_slice(), text.len() as u64).ok(),
        Err(_) => None,
    }
}

/// The least places of a text; None where the text isn't read.
fn places(alloc: Global, text: &[u8]) -> Option<LeastPlaces> {
    let syntax = read(alloc, text)?;
    let outline = read_outline(alloc, &syntax).ok()?;
    if !outline.is_countable() {
        return None;
    }
    let (directory, _) = read_directory(alloc, &outline).ok()?;
    Some(LeastPlaces {
        unknown: least_unknown(&outline, &directory),
        bad_row: least_bad_row(&outline, &directory),
        mixed: least_mixed(&outline, &directory),
        wrong_width: least_wrong_width(&outline),
    })
}

fn found(
    unknown: Option<u64>,
    bad_row: Option<u64>,
    mixed: Option<u64>,
    wrong_width: Option<u64>,
) -> Option<LeastPlaces> {
    Some(LeastPlaces {
        unknown,
        bad_row,
        mixed,
        wrong_width,
    })
}

fn nothing() -> Option<LeastPlaces> {
    found(None, None, None, None)
}

fn unknown(at: u64) -> Option<LeastPlaces> {
    found(Some(at), None, None, None)
}

fn bad_row(at: u64) -> Option<LeastPlaces> {
    found(None, Some(at), None, None)
}

fn mixed(at: u64) -> Option<LeastPlaces> {
    found(None, None, Some(at), None)
}

fn wrong_width(at: u64) -> Option<LeastPlaces> {
    found(None, None, None, Some(at))
}

#[test]
fn finds_what_is_not_declared(rt: HostRuntime) -> Result<(), Fail> {
    assert_eq!(rt;
        places(rt.alloc(), b"namespace A(2); pol commit x; pol s = B.x;"),
        unknown(38)
    );
    assert_eq!(rt;
        places(rt.alloc(), b"namespace A(2); pol s = y;"),
        unknown(24)
    );
    assert_eq!(rt;
        places(
            rt.alloc(),
            b"namespace A(2); pol commit x; namespace B(2); { 1 } in { A.y };"
        ),
        unknown(59)
    );
    assert_eq!(rt;
        places(rt.alloc(), b"namespace A(2); pol commit x; x = :p;"),
        unknown(35)
    );
    assert_eq!(rt;
        places(rt.alloc(), b"namespace A(2); pol s = 1 - %n;"),
        unknown(29)
    );
    assert_eq!(rt;
        places(rt.alloc(), b"namespace A(2); pol s = %n; constant %n = 2;"),
        unknown(25)
    );
    assert_eq!(rt;
        places(
            rt.alloc(),
            b"namespace A(2); pol commit x; { x } in { B.y }; namespace B(2); pol commit y; y = :p; public p = A.x(0);"
        ),
        nothing()
    );
    Ok(())
}

#[test]
fn finds_a_wrong_index(rt: HostRuntime) -> Result<(), Fail> {
    assert_eq!(rt;
        places(
            rt.alloc(),
            b"namespace A(2); pol commit x[3]; pol s = x[3];"
        ),
        unknown(43)
    );
    assert_eq!(rt;
        places(
            rt.alloc(),
            b"namespace A(2); pol commit x[3]; pol s = x[2];"
        ),
        nothing()
    );
    assert_eq!(rt;
        places(rt.alloc(), b"namespace A(2); pol constant x[3]; pol s = x;"),
        unknown(43)
    );
    assert_eq!(rt;
        places(rt.alloc(), b"namespace A(2); pol commit x; pol s = x[0];"),
        unknown(38)
    );
    assert_eq!(rt;
        places(rt.alloc(), b"namespace A(2); pol z = 1; pol s = z[0];"),
        unknown(35)
    );
    Ok(())
}

#[test]
fn finds_a_public_of_what_may_be_none(rt: HostRuntime) -> Result<(), Fail> {
    assert_eq!(rt;
        places(rt.alloc(), b"namespace A(2); pol s = 1; public p = s(0);"),
        unknown(38)
    );
    assert_eq!(rt;
        places(
            rt.alloc(),
            b"namespace A(2); pol commit x; public p = x'(0);"
        ),
        unknown(41)
    );
    assert_eq!(rt;
        places(rt.alloc(), b"namespace A(2); public p = x(0);"),
        unknown(27)
    );
    assert_eq!(rt;
        places(
            rt.alloc(),
            b"namespace A(2); pol constant x; pol commit y[2]; public p = x(0); public q = y[1](1);"
        ),
        nothing()
    );
    Ok(())
}

#[test]
fn finds_the_least_place(rt: HostRuntime) -> Result<(), Fail> {
    assert_eq!(rt;
        places(
            rt.alloc(),
            b"namespace A(2); pol commit x; pol s = x + y * (z - w);"
        ),
        unknown(42)
    );
    assert_eq!(rt;
        places(rt.alloc(), b"namespace A(2); x { y } in { z };"),
        unknown(16)
    );
    assert_eq!(rt;
        places(rt.alloc(), b"namespace A(2); { x } + { y } is { z };"),
        unknown(18)
    );
    assert_eq!(rt;
        places(rt.alloc(), b"namespace A(2); { 1 } is { x };"),
        unknown(27)
    );
    Ok(())
}

#[test]
fn finds_an_unknown_size(rt: HostRuntime) -> Result<(), Fail> {
    assert_eq!(rt;
        places(rt.alloc(), b"namespace A(%n);"),
        found(Some(13), Some(13), None, None)
    );
    assert_eq!(rt;
        places(rt.alloc(), b"namespace A(2); pol s = y; namespace B(%n);"),
        found(Some(24), Some(40), None, None)
    );
    Ok(())
}

#[test]
fn finds_a_size_out_of_range(rt: HostRuntime) -> Result<(), Fail> {
    assert_eq!(rt; places(rt.alloc(), b"namespace A(0);"), bad_row(12));
    assert_eq!(rt; places(rt.alloc(), b"namespace A(16777217);"), bad_row(12));
    assert_eq!(rt;
        places(rt.alloc(), b"namespace A(1); namespace B(16777216);"),
        nothing()
    );
    assert_eq!(rt;
        places(rt.alloc(), b"constant %n = 0; namespace A(%n);"),
        bad_row(30)
    );
    assert_eq!(rt;
        places(rt.alloc(), b"constant %n = 16777217; namespace A(%n);"),
        bad_row(37)
    );
    Ok(())
}

#[test]
fn finds_a_public_row_out_of_range(rt: HostRuntime) -> Result<(), Fail> {
    assert_eq!(rt;
        places(
            rt.alloc(),
            b"namespace A(2); pol commit x; public p = x(2);"
        ),
        bad_row(43)
    );
    assert_eq!(rt;
        places(
            rt.alloc(),
            b"namespace A(2); pol commit x; public p = x(1);"
        ),
        nothing()
    );
    assert_eq!(rt;
        places(
            rt.alloc(),
            b"namespace A(2); pol commit x; namespace B(4); public p = A.x(3);"
        ),
        bad_row(61)
    );
    assert_eq!(rt;
        places(
            rt.alloc(),
            b"namespace A(2); namespace B(4); pol commit x; public p = B.x(3);"
        ),
        nothing()
    );
    Ok(())
}

#[test]
fn finds_a_mixed_polynomial(rt: HostRuntime) -> Result<(), Fail> {
    assert_eq!(rt;
        places(
            rt.alloc(),
            b"namespace A(2); pol commit x; namespace B(4); pol s = A.x;"
        ),
        mixed(56)
    );
    assert_eq!(rt;
        places(
            rt.alloc(),
            b"namespace A(2); pol commit x; namespace B(4); pol commit y; y = A.x;"
        ),
        mixed(66)
    );
    assert_eq!(rt;
        places(
            rt.alloc(),
            b"namespace A(2); pol commit x; namespace B(4); pol commit y; A.x - 1 = y;"
        ),
        mixed(70)
    );
    assert_eq!(rt;
        places(
            rt.alloc(),
            b"namespace A(2); pol commit x; namespace B(4); pol commit y; { y, A.x } in { y, y };"
        ),
        mixed(67)
    );
    assert_eq!(rt;
        places(
            rt.alloc(),
            b"namespace A(2); pol commit x; namespace B(4); pol commit y; A.x { y } is { y };"
        ),
        mixed(66)
    );
    assert_eq!(rt;
        places(
            rt.alloc(),
            b"namespace A(2); pol commit x; namespace B(4); pol commit y; { y } is { y } + (1 + y) { A.x };"
        ),
        mixed(89)
    );
    assert_eq!(rt;
        places(
            rt.alloc(),
            b"namespace A(2); pol commit x; namespace B(4); pol commit y; { y } in { A.x }; A.x = 1; A.x { 1 } + { y } is { A.x };"
        ),
        nothing()
    );
    Ok(())
}

#[test]
fn finds_a_wrong_width(rt: HostRuntime) -> Result<(), Fail> {
    assert_eq!(rt;
        places(
            rt.alloc(),
            b"namespace A(2); pol commit x; { x, 1 } in { x };"
        ),
        wrong_width(42)
    );
    assert_eq!(rt;
        places(
            rt.alloc(),
            b"namespace A(2); pol commit x; { x } is { x, 1 };"
        ),
        wrong_width(39)
    );
    assert_eq!(rt;
        places(
            rt.alloc(),
            b"namespace A(2); pol commit x; { x } + x { x, 1 } is { x };"
        ),
        wrong_width(40)
    );
    assert_eq!(rt;
        places(
            rt.alloc(),
            b"namespace A(2); pol commit x; x { x, 1 } + { 1, 2 } is { x, x };"
        ),
        nothing()
    );
    assert_eq!(rt;
        places(rt.alloc(), b"namespace A(2); pol commit x[0];"),
        wrong_width(29)
    );
    assert_eq!(rt;
        places(rt.alloc(), b"namespace A(2); pol constant y, x[4097];"),
        wrong_width(34)
    );
    assert_eq!(rt;
        places(rt.alloc(), b"namespace A(2); pol commit x[1], y[4096];"),
        nothing()
    );
    Ok(())
}
