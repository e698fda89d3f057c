use super::*;
use std::alloc::{AllocError, Global};
use std::test::Fail;

/// The tokens of the text, each after its place, or why there are none.
fn shown(alloc: Global, text: &[u8]) -> Result<String, AllocError> {
    match tokens(alloc, text) {
        Ok(found) => {
            let mut out = Vec::new(alloc);
            for placed in &found {
                let at = format!(in alloc; "{}:", placed.at)?;
                out.extend_from_slice(at.as_bytes())?;
                spell(&placed.token, &mut out)?;
                out.push(b' ')?;
            }
            String::from_utf8_lossy(alloc, out.as_slice())
        }
        Err(e) => format!(in alloc; "{:?} {}", e.kind, e.at),
    }
}

#[test]
fn refuses_at_the_first_bad_byte_or_large_number(rt: HostRuntime) -> Result<(), Fail> {
    assert_eq!(rt; shown(rt.alloc(), b"/* ")?.as_str(), "BadByte 0");
    assert_eq!(rt;
        shown(rt.alloc(), b"constant %a = 18446744069414584321;")?.as_str(),
        "NumberTooLarge 14"
    );
    assert_eq!(rt;
        shown(rt.alloc(), b"x = 0xFFFFFFFF00000001")?.as_str(),
        "NumberTooLarge 4"
    );
    assert_eq!(rt; shown(rt.alloc(), b"a \x00")?.as_str(), "BadByte 2");
    assert_eq!(rt; shown(rt.alloc(), b"\xC3\xA9")?.as_str(), "BadByte 0");
    assert_eq!(rt; shown(rt.alloc(), b"ab/")?.as_str(), "BadByte 2");
    assert_eq!(rt; shown(rt.alloc(), b"/*/")?.as_str(), "BadByte 0");
    Ok(())
}

#[test]
fn reads_numbers_in_both_radixes(rt: HostRuntime) -> Result<(), Fail> {
    assert_eq!(rt;
        shown(rt.alloc(), b"18446744069414584320")?.as_str(),
        "0:18446744069414584320 "
    );
    assert_eq!(rt;
        shown(rt.alloc(), b"0xfFfFfFfF00000000 007")?.as_str(),
        "0:18446744069414584320 19:7 "
    );
    assert_eq!(rt;
        shown(rt.alloc(), b"0x 0xg 0X1 1x2")?.as_str(),
        "0:0 1:x 3:0 4:xg 7:0 8:X1 11:1 12:x2 "
    );
    Ok(())
}

#[test]
fn passes_over_blanks_and_comments(rt: HostRuntime) -> Result<(), Fail> {
    assert_eq!(rt; shown(rt.alloc(), b"")?.as_str(), "");
    assert_eq!(rt; shown(rt.alloc(), b" \t\r\n")?.as_str(), "");
    assert_eq!(rt; shown(rt.alloc(), b"a// b")?.as_str(), "0:a ");
    assert_eq!(rt;
        shown(rt.alloc(), b"//\nb/**/c/* * / **/d")?.as_str(),
        "3:b 8:c 19:d "
    );
    Ok(())
}

#[test]
fn reads_marks_names_and_reserved_words(rt: HostRuntime) -> Result<(), Fail> {
    assert_eq!(rt;
        shown(rt.alloc(), b"%=;(){}[],.'+-*:")?.as_str(),
        "0:% 1:= 2:; 3:( 4:) 5:{ 6:} 7:[ 8:] 9:, 10:. 11:' 12:+ 13:- 14:* 15:: "
    );
    assert_eq!(rt;
        shown(rt.alloc(), b"in is pol inn _1 Is")?.as_str(),
        "0:in 3:is 6:pol 10:inn 14:_1 17:Is "
    );
    let found = tokens(rt.alloc(), b"commit commits").map_err(|_| "memory")?;
    assert_eq!(rt; found.len(), 2);
    assert!(rt; matches!(&found[0].token, Token::Word(Word::Commit)));
    assert!(rt;
        matches!(&found[1].token, Token::Name(name) if name.bytes() == b"commits".as_slice())
    );
    Ok(())
}

#[test]
fn tells_names_from_other_bytes(rt: HostRuntime) -> Result<(), Fail> {
    assert!(rt; is_name(b"_a9") && is_name(b"inn"));
    assert!(rt; !is_name(b"") && !is_name(b"9a") && !is_name(b"a-b") && !is_name(b"in"));
    longest_token(b"a");
    let bytes: &[u8] = b"clk";
    assert!(rt; is_name(bytes));
    let name = Name::from_vec(Name::new(rt.alloc(), bytes)?.into_vec());
    assert_eq!(rt; name.bytes(), b"clk".as_slice());
    Ok(())
}
