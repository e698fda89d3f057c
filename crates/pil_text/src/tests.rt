//! Texts that are read, and texts that are refused: by which rule, and where.

ghost use Rattle.std.specs.Prelude.{IfOk};
ghost use Rattle.pil_ast.specs.Tree.{namespaces};
ghost use Rattle.pil_ast.specs.Sound.{IsSound};

use crate::error::{PilErr, PilKind};
use crate::reading::read;
use pil_ast::{Expr, Item, Pil};
use pil_print::print;
use std::alloc::{AllocError, Global};
use std::test::Fail;

/// The tree of a text of at most 2^20 bytes.
fn read_short(alloc: Global, text: &[u8]) -> Result<Pil, PilErr>
    ensures { IfOk result (λ pil. IsSound (namespaces pil)) }
{
    if text.len() > 1 << 20 {
        return Err(PilErr {
            kind: PilKind::NoMemory,
            at: 0,
        });
    }
    read(alloc, text)
}

/// Why a text is refused; None where it is read.
fn refusal(alloc: Global, text: &[u8]) -> Option<PilErr> {
    match read_short(alloc, text) {
        Ok(_) => None,
        Err(error) => Some(error),
    }
}

fn because(kind: PilKind, at: u64) -> Option<PilErr> {
    Some(PilErr { kind, at })
}

/// A head, a piece so many times, and a tail.
fn pieces(
    alloc: Global,
    head: &[u8],
    piece: &[u8],
    count: usize,
    tail: &[u8],
) -> Result<Vec<u8>, AllocError> {
    let mut text = Vec::new(alloc);
    text.extend_from_slice(head)?;
    for _ in 0..count {
        text.extend_from_slice(piece)?;
    }
    text.extend_from_slice(tail)?;
    Ok(text)
}

/// A namespace whose intermediates `s1`, `s2`, .. are each twice the one before.
fn doublings(alloc: Global, count: u32) -> Result<Vec<u8>, AllocError> {
    let mut text = Vec::new(alloc);
    text.extend_from_slice(b"namespace A(2); pol commit s0;")?;
    for last in 0..count {
        let number = last as u64 + 1;
        let line = format!(in alloc; " pol s{number} = s{last} + s{last};")?;
        text.extend_from_slice(line.as_bytes())?;
    }
    Ok(text)
}

/// A namespace whose intermediates `s0`, `s1`, .. each name the one behind, and the last what is told.
fn backwards(alloc: Global, count: u32, told: &[u8]) -> Result<Vec<u8>, AllocError> {
    let mut text = Vec::new(alloc);
    text.extend_from_slice(b"namespace A(2); pol commit x;")?;
    for number in 0..count {
        let next = number as u64 + 1;
        let line = format!(in alloc; " pol s{number} = s{next} - 1;")?;
        text.extend_from_slice(line.as_bytes())?;
    }
    let line = format!(in alloc; " pol s{count} = ")?;
    text.extend_from_slice(line.as_bytes())?;
    text.extend_from_slice(told)?;
    text.push(b';')?;
    Ok(text)
}

#[test]
fn refuses_by_each_rule(rt: HostRuntime) -> Result<(), Fail> {
    assert_eq!(rt;
        refusal(rt.alloc(), b"namespace A(2); pol commit x; x = #;"),
        because(PilKind::BadByte, 34)
    );
    assert_eq!(rt;
        refusal(
            rt.alloc(),
            b"namespace A(2); pol commit x; x = 18446744069414584321;"
        ),
        because(PilKind::NumberTooLarge, 34)
    );
    assert_eq!(rt;
        refusal(rt.alloc(), b"namespace A(2); pol commit x; x = ;"),
        because(PilKind::Unexpected, 34)
    );
    assert_eq!(rt;
        refusal(
            rt.alloc(),
            b"namespace A(2); pol z = (((((((((((((((((((((((((((((((((1)))))))))))))))))))))))))))))))));"
        ),
        because(PilKind::TooDeep, 56)
    );
    assert_eq!(rt;
        refusal(rt.alloc(), b"namespace A(2); pol commit x; pol commit x;"),
        because(PilKind::Repeated, 41)
    );
    assert_eq!(rt;
        refusal(rt.alloc(), b"namespace A(2); pol commit x; x = y;"),
        because(PilKind::UnknownName, 34)
    );
    assert_eq!(rt;
        refusal(rt.alloc(), b"namespace A(0);"),
        because(PilKind::BadRow, 12)
    );
    assert_eq!(rt;
        refusal(
            rt.alloc(),
            b"namespace A(2); pol commit x; namespace B(4); pol s = A.x;"
        ),
        because(PilKind::Mixed, 56)
    );
    assert_eq!(rt;
        refusal(
            rt.alloc(),
            b"namespace A(2); pol commit x; { x, 1 } in { x };"
        ),
        because(PilKind::WrongWidth, 42)
    );
    assert_eq!(rt;
        refusal(rt.alloc(), b"namespace A(2); pol s = t; pol t = s;"),
        because(PilKind::CyclicPol, 20)
    );
    assert_eq!(rt;
        refusal(
            rt.alloc(),
            b"namespace A(2); pol commit x; pol a = x'; pol b = a';"
        ),
        because(PilKind::DoubleMark, 51)
    );
    Ok(())
}

#[test]
fn lets_the_first_rule_decide(rt: HostRuntime) -> Result<(), Fail> {
    assert_eq!(rt;
        refusal(rt.alloc(), b"namespace A(18446744069414584321); #"),
        because(PilKind::NumberTooLarge, 12)
    );
    assert_eq!(rt;
        refusal(rt.alloc(), b"namespace A(# 18446744069414584321);"),
        because(PilKind::BadByte, 12)
    );
    assert_eq!(rt;
        refusal(rt.alloc(), b"x = 1; #"),
        because(PilKind::BadByte, 7)
    );
    assert_eq!(rt;
        refusal(
            rt.alloc(),
            b"namespace A(2); pol commit x; pol commit x; x = ;"
        ),
        because(PilKind::Unexpected, 48)
    );
    assert_eq!(rt;
        refusal(
            rt.alloc(),
            b"namespace A(2); pol commit x; x = y; pol commit x;"
        ),
        because(PilKind::Repeated, 48)
    );
    assert_eq!(rt;
        refusal(
            rt.alloc(),
            b"namespace A(2); pol commit x; namespace B(4); pol s = A.x; pol t = z;"
        ),
        because(PilKind::UnknownName, 67)
    );
    assert_eq!(rt;
        refusal(
            rt.alloc(),
            b"namespace A(2); pol commit x; namespace B(4); pol s = A.x; namespace C(0);"
        ),
        because(PilKind::BadRow, 71)
    );
    assert_eq!(rt;
        refusal(
            rt.alloc(),
            b"namespace A(2); pol commit x[4097]; namespace B(4); pol s = A.x[0];"
        ),
        because(PilKind::Mixed, 62)
    );
    assert_eq!(rt;
        refusal(rt.alloc(), b"namespace A(2); pol s = s; { s, 1 } in { s };"),
        because(PilKind::WrongWidth, 39)
    );
    assert_eq!(rt;
        refusal(
            rt.alloc(),
            b"namespace A(2); pol commit x; pol a = x'; pol b = a'; pol c = c;"
        ),
        because(PilKind::CyclicPol, 58)
    );
    Ok(())
}

#[test]
fn refuses_at_the_least_place(rt: HostRuntime) -> Result<(), Fail> {
    assert_eq!(rt;
        refusal(
            rt.alloc(),
            b"constant %n = 1; constant %n = 2; namespace A(2); namespace A(2); pol commit x, x;"
        ),
        because(PilKind::Repeated, 27)
    );
    assert_eq!(rt;
        refusal(
            rt.alloc(),
            b"namespace A(2); pol commit x; public p = x(0); namespace B(2); pol commit x; public p = x(1);"
        ),
        because(PilKind::Repeated, 84)
    );
    assert_eq!(rt;
        refusal(
            rt.alloc(),
            b"namespace A(2); pol commit x[2]; pol s = x[2] + y;"
        ),
        because(PilKind::UnknownName, 43)
    );
    assert_eq!(rt;
        refusal(
            rt.alloc(),
            b"namespace A(2); pol commit x; public p = x'(0); x = y;"
        ),
        because(PilKind::UnknownName, 41)
    );
    assert_eq!(rt;
        refusal(
            rt.alloc(),
            b"namespace A(2); pol commit x; public p = x(2); namespace B(0);"
        ),
        because(PilKind::BadRow, 43)
    );
    assert_eq!(rt;
        refusal(rt.alloc(), b"constant %n = 16777217; namespace A(%n);"),
        because(PilKind::BadRow, 37)
    );
    assert_eq!(rt;
        refusal(
            rt.alloc(),
            b"namespace A(2); { 1 } + { 1, 2 } is { 1, 2 }; pol commit x[0];"
        ),
        because(PilKind::WrongWidth, 24)
    );
    assert_eq!(rt;
        refusal(
            rt.alloc(),
            b"namespace A(2); pol commit x; pol c = b; pol a = x'; pol b = a; c' = a';"
        ),
        because(PilKind::DoubleMark, 65)
    );
    Ok(())
}

#[test]
fn finds_what_depends_on_itself(rt: HostRuntime) -> Result<(), Fail> {
    assert_eq!(rt;
        refusal(rt.alloc(), b"namespace A(2); pol s = s';"),
        because(PilKind::CyclicPol, 20)
    );
    assert_eq!(rt;
        refusal(
            rt.alloc(),
            b"namespace A(2); pol s = 1; namespace B(4); pol t = u; pol u = t;"
        ),
        because(PilKind::CyclicPol, 47)
    );
    assert_eq!(rt;
        refusal(
            rt.alloc(),
            b"namespace A(2); pol b = c; pol a = a + b; pol c = d; pol d = c;"
        ),
        because(PilKind::CyclicPol, 31)
    );
    assert_eq!(rt;
        refusal(
            rt.alloc(),
            b"namespace A(2); pol b = a; pol a = d; pol c = b; pol d = a;"
        ),
        because(PilKind::CyclicPol, 31)
    );
    assert_eq!(rt;
        refusal(
            rt.alloc(),
            b"namespace A(2); pol s = t; pol t = :p; pol commit x; public p = x(0); x = s + t;"
        ),
        None
    );
    Ok(())
}

#[test]
fn stops_at_the_limits(rt: HostRuntime) -> Result<(), Fail> {
    let alloc = rt.alloc();
    let head = b"namespace A(2); pol z = ";
    let minuses = pieces(alloc, head, b"-", 32, b"1;")?;
    assert_eq!(rt; refusal(alloc, minuses.as_slice()), None);
    let minuses = pieces(alloc, head, b"-", 33, b"1;")?;
    assert_eq!(rt;
        refusal(alloc, minuses.as_slice()),
        because(PilKind::TooDeep, 56)
    );
    let sum = pieces(alloc, head, b"1*", 128, b"1;")?;
    assert_eq!(rt; refusal(alloc, sum.as_slice()), None);
    let sum = pieces(alloc, head, b"1*", 129, b"1;")?;
    assert_eq!(rt;
        refusal(alloc, sum.as_slice()),
        because(PilKind::TooDeep, 281)
    );
    assert_eq!(rt;
        refusal(
            rt.alloc(),
            b"namespace A(1); namespace B(16777216); pol commit x[1], y[4096]; public p = y[4095](16777215);"
        ),
        None
    );
    assert_eq!(rt;
        refusal(
            rt.alloc(),
            b"constant %n = 18446744069414584320; namespace A(2); %n = -1;"
        ),
        None
    );
    Ok(())
}

#[test]
fn reads_or_refuses_each_prefix(rt: HostRuntime) -> Result<(), Fail> {
    let text =
        b"constant %n = 0x10; namespace Table(%n); pol constant k, m[3]; namespace A(8); pol commit x, y[2]; constant %two = 2; pol z = x + %two * (y[0] - 1); public p = y[1](3); x' - :p = -(x * z'); x { x, y[0] } in (1 - Table.k) { Table.k, Table.m[2]' }; { z } + x { z' } is { y[1] } + (z) { %n };";
    let mut whole = Vec::new(rt.alloc());
    for end in 0..text.len() + 1 {
        let prefix = &text[..end];
        match refusal(rt.alloc(), prefix) {
            None => {
                assert!(rt; matches!(prefix.trim_ascii_end().last(), None | Some(b';')));
                whole.push(end)?;
            }
            Some(error) => assert_eq!(rt; error.kind, PilKind::Unexpected),
        }
    }
    assert_eq!(rt; refusal(rt.alloc(), text), None);
    assert_eq!(rt; whole.len(), 22);
    Ok(())
}

#[test]
fn gives_the_tree(rt: HostRuntime) -> Result<(), Fail> {
    let text =
        b"// rows\nconstant %n = 8; namespace A(%n); x' = s + y[1]; /* later */ pol s = -%n; pol commit x; pol constant y[2]; namespace B(4);";
    let pil = read_short(rt.alloc(), text).map_err(|_| "refused")?;
    let spaces = pil.spaces.as_slice();
    assert_eq!(rt; spaces.len(), 2);
    assert_eq!(rt; spaces[0].rows, 8);
    assert_eq!(rt; spaces[1].rows, 4);
    assert_eq!(rt; spaces[1].name.as_slice(), b"B".as_slice());
    let items = spaces[0].items.as_slice();
    assert_eq!(rt; items.len(), 4);
    assert!(rt; matches!(&items[3], Item::Constant { len: Some(2), .. }));
    assert!(rt;
        matches!(
            &items[0],
            Item::Identity {
                left: Expr::Column {
                    space: 0,
                    column: 2,
                    next: true
                },
                ..
            }
        )
    );
    Ok(())
}

#[test]
fn refuses_bytes_of_no_token(rt: HostRuntime) -> Result<(), Fail> {
    let alloc = rt.alloc();
    for byte in 128..=255u8 {
        assert_eq!(rt; refusal(alloc, &[byte]), because(PilKind::BadByte, 0));
    }
    assert_eq!(rt;
        refusal(alloc, b"namespace A(2);\x00"),
        because(PilKind::BadByte, 15)
    );
    assert_eq!(rt; refusal(alloc, &[0; 4096]), because(PilKind::BadByte, 0));
    assert_eq!(rt;
        refusal(alloc, b"namespace \xC3\xA9(2);"),
        because(PilKind::BadByte, 10)
    );
    assert_eq!(rt;
        refusal(rt.alloc(), b"namespace A(2); /* pol commit x;"),
        because(PilKind::BadByte, 16)
    );
    assert_eq!(rt;
        refusal(rt.alloc(), b"namespace A(2); /*/"),
        because(PilKind::BadByte, 16)
    );
    assert_eq!(rt;
        refusal(rt.alloc(), b"namespace A(2); // pol commit x"),
        None
    );
    Ok(())
}

#[test]
fn survives_long_texts(rt: HostRuntime) -> Result<(), Fail> {
    let alloc = rt.alloc();
    let opened = pieces(alloc, b"namespace A(2); pol z = ", b"(", 1 << 12, b"")?;
    assert_eq!(rt;
        refusal(alloc, opened.as_slice()),
        because(PilKind::TooDeep, 56)
    );
    let name = pieces(alloc, b"namespace A(2); pol commit ", b"a", 1 << 14, b";")?;
    assert_eq!(rt; refusal(alloc, name.as_slice()), None);
    let constants = pieces(alloc, b"", b"constant %a = 1;", 1 << 10, b"")?;
    assert_eq!(rt;
        refusal(alloc, constants.as_slice()),
        because(PilKind::Repeated, 26)
    );
    let chain = doublings(alloc, 64)?;
    assert_eq!(rt; refusal(alloc, chain.as_slice()), None);
    let chain = doublings(alloc, 300)?;
    assert_eq!(rt; refusal(alloc, chain.as_slice()), None);
    Ok(())
}

#[test]
fn follows_long_chains_backwards(rt: HostRuntime) -> Result<(), Fail> {
    let alloc = rt.alloc();
    let chain = backwards(alloc, 300, b"x'")?;
    assert_eq!(rt; refusal(alloc, chain.as_slice()), None);
    let ring = backwards(alloc, 300, b"s0")?;
    assert_eq!(rt;
        refusal(alloc, ring.as_slice()),
        because(PilKind::CyclicPol, 34)
    );
    let mut marked = backwards(alloc, 300, b"x'")?;
    let at = marked.len() as u64;
    marked.extend_from_slice(b" x = s0';")?;
    assert_eq!(rt;
        refusal(alloc, marked.as_slice()),
        because(PilKind::DoubleMark, at + 7)
    );
    Ok(())
}

#[test]
fn refuses_wrong_lengths_of_arrays(rt: HostRuntime) -> Result<(), Fail> {
    assert_eq!(rt;
        refusal(rt.alloc(), b"namespace A(2); pol commit x[4097];"),
        because(PilKind::WrongWidth, 29)
    );
    assert_eq!(rt;
        refusal(rt.alloc(), b"namespace A(2); pol commit x[0];"),
        because(PilKind::WrongWidth, 29)
    );
    assert_eq!(rt;
        refusal(
            rt.alloc(),
            b"namespace A(2); pol constant y, x[18446744069414584320];"
        ),
        because(PilKind::WrongWidth, 34)
    );
    assert_eq!(rt;
        refusal(
            rt.alloc(),
            b"namespace A(2); pol commit x[18446744069414584320]; x[18446744069414584320] = 1;"
        ),
        because(PilKind::UnknownName, 54)
    );
    assert_eq!(rt;
        refusal(rt.alloc(), b"namespace A(18446744069414584320);"),
        because(PilKind::BadRow, 12)
    );
    Ok(())
}

/// What is printed of a text.
fn reprinted(alloc: Global, text: &[u8]) -> Result<Vec<u8>, PilErr> {
    let pil = read_short(alloc, text)?;
    Ok(print(alloc, &pil)?)
}

#[test]
fn prints_a_text(rt: HostRuntime) -> Result<(), Fail> {
    let small = b"namespace A(2); pol commit x; x' = (x+1);";
    let printed = reprinted(rt.alloc(), small)?;
    assert_eq!(rt;
        printed.as_slice(),
        b"namespace A(2);\npol commit x;\nA.x' = A.x + 1;\n".as_slice()
    );
    Ok(())
}

#[test]
fn prints_each_construct(rt: HostRuntime) -> Result<(), Fail> {
    let text =
        b"constant %n = 0x10; namespace A(%n); pol constant c[2], d; pol commit x, y[3]; /* two */
        pol s = (x - (y[0] - 1)) * (c[1]); public t = y[2](1); -(x*d) - -s' = (s * (x * 2)) + :t;
        namespace B(4); pol commit x; (A.x - 1) {A.x, A.y[2]} in {x, (x)}; A.d{A.x} is B.x {B.x} + {%n};";
    let printed = reprinted(rt.alloc(), text)?;
    let again = reprinted(rt.alloc(), printed.as_slice())?;
    assert_eq!(rt;
        printed.as_slice(),
        b"namespace A(16);\npol constant c[2];\npol constant d;\npol commit x;\npol commit y[3];\n\
pol s = (A.x - (A.y[0] - 1)) * A.c[1];\npublic t = A.y[2](1);\n-(A.x * A.d) - -A.s' = A.s * (A.x * 2) + :t;\n\
namespace B(4);\npol commit x;\n(A.x - 1) {A.x, A.y[2]} in {B.x, B.x};\nA.d {A.x} is B.x {B.x} + {16};\n"
            .as_slice()
    );
    assert_eq!(rt; again.as_slice(), printed.as_slice());
    Ok(())
}
