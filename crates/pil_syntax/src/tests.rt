//! Texts that are read, and texts that are refused.
use crate::reading::read_syntax;
use crate::tree::{Syntax, SyntaxErr, SyntaxErrKind};
use std::alloc::Global;
use std::test::Fail;

fn no_memory() -> SyntaxErr {
    SyntaxErr {
        kind: SyntaxErrKind::NoMemory,
        at: 0,
    }
}

fn read(alloc: Global, text: &[u8]) -> Result<Syntax, SyntaxErr> {
    match pil_token::tokens(alloc, text) {
        Ok(tokens) => read_syntax(alloc, tokens.as_slice(), text.len() as u64),
        Err(_) => Err(no_memory()),
    }
}

/// How many statements are read.
fn count(alloc: Global, text: &[u8]) -> Option<usize> {
    match read(alloc, text) {
        Ok(syntax) => Some(syntax.statements.len()),
        Err(_) => None,
    }
}

fn refusal(alloc: Global, text: &[u8]) -> Option<SyntaxErr> {
    match read(alloc, text) {
        Ok(_) => None,
        Err(error) => Some(error),
    }
}

fn unexpected(at: u64) -> Option<SyntaxErr> {
    Some(SyntaxErr {
        kind: SyntaxErrKind::Unexpected,
        at,
    })
}

fn too_deep(at: u64) -> Option<SyntaxErr> {
    Some(SyntaxErr {
        kind: SyntaxErrKind::TooDeep,
        at,
    })
}

#[test]
fn reads_each_kind_of_statement(rt: HostRuntime) -> Result<(), Fail> {
    let text =
        b"constant %n = 8; namespace A(%n); pol constant k; pol commit x, y[2]; pol z = x + %n * -1; public p = A.y[1](3); x' = (x + :p); x { x, y[0] } in (1 - k) { k, A.x }; { z } + x { z' } is { y[1] };";
    assert_eq!(rt; count(rt.alloc(), text), Some(9));
    assert_eq!(rt; count(rt.alloc(), b""), Some(0));
    Ok(())
}

#[test]
fn tells_the_first_token_that_no_file_has_there(rt: HostRuntime) -> Result<(), Fail> {
    assert_eq!(rt;
        refusal(rt.alloc(), b"namespace A(2); pol commit x; x = x"),
        unexpected(35)
    );
    assert_eq!(rt; refusal(rt.alloc(), b"x = 1;"), unexpected(0));
    assert_eq!(rt;
        refusal(rt.alloc(), b"namespace A(2); {1} + {2} in {3};"),
        unexpected(26)
    );
    assert_eq!(rt;
        refusal(rt.alloc(), b"namespace A(2); x + 1 {2} in {3};"),
        unexpected(22)
    );
    assert_eq!(rt;
        refusal(rt.alloc(), b"namespace A(2); pol z = 1 -* 2;"),
        unexpected(27)
    );
    Ok(())
}

#[test]
fn tells_what_is_too_deep(rt: HostRuntime) -> Result<(), Fail> {
    assert_eq!(rt;
        refusal(
            rt.alloc(),
            b"namespace A(2); pol z = (((((((((((((((((((((((((((((((((1)))))))))))))))))))))))))))))))));"
        ),
        too_deep(56)
    );
    assert_eq!(rt;
        refusal(
            rt.alloc(),
            b"namespace A(2); pol z = 1+1+1+1+1+1+1+1+1+1+1+1+1+1+1+1+1+1+1+1+1+1+1+1+1+1+1+1+1+1+1+1+1+1+1+1+1+1+1+1+1+1+1+1+1+1+1+1+1+1+1+1+1+1+1+1+1+1+1+1+1+1+1+1+1+1+1+1+1+1+1+1+1+1+1+1+1+1+1+1+1+1+1+1+1+1+1+1+1+1+1+1+1+1+1+1+1+1+1+1+1+1+1+1+1+1+1+1+1+1+1+1+1+1+1+1+1+1+1+1+1+1+1+1+1+1+1+1+1+1;"
        ),
        too_deep(281)
    );
    Ok(())
}
