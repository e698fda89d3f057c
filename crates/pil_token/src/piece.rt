//! What begins at the front of a text.
ghost use Rattle.std.specs.Prelude.{◌≡◌, ◌↔◌, IsTrue, ◌<◌, ◌≤◌, ◌+◌, IfOk, IfSome, Some, None, length, nat_lt, not, take_while, if◌then◌else◌};
ghost use Rattle.std.specs.Char.{digit_value, is_digit};
ghost use Rattle.std.specs.List.{list_all, prefix_len};
ghost use Rattle.std.specs.Str.Parse.{digits_value};
ghost use Rattle.pil_token.specs.Spelling.{begins_name, continues_name, word_of, mark_of, IsWordLike, IsName};
ghost use Rattle.pil_token.specs.Tokens.{is_blank, is_feed, digits_at, hexadecimal_at, numbered, numeral, closed, comment, begins, word_like, marked};

use crate::token::{LexKind, Mark, Name, Piece, Token, Word};
use std::alloc::{AllocError, Global};

/// The order of the field: no number reaches it.
const ORDER: u64 = 18446744069414584321;

fn is_blank(byte: u8) -> bool
    ensures { result ≡ is_blank byte }
{
    byte == b' ' || byte == b'\t' || byte == b'\n' || byte == b'\r'
}

fn begins_name(byte: u8) -> bool
    ensures { result ≡ begins_name byte }
{
    byte.is_ascii_alphabetic() || byte == b'_'
}

fn continues_name(byte: u8) -> bool
    ensures { result ≡ continues_name byte }
{
    byte.is_ascii_alphanumeric() || byte == b'_'
}

/// The value of a digit or a letter, in a radix of up to 36; 36 for any other byte.
fn digit_value(byte: u8) -> u8
    ensures value { result ≡ digit_value byte }
    ensures small { result ≤ 36 }
{
    match byte {
        b'0'..=b'9' => byte - b'0',
        b'A'..=b'Z' => byte - b'A' + 10,
        b'a'..=b'z' => byte - b'a' + 10,
        _ => 36,
    }
}

#[tactic(auto, unfolding(crate::specs::Spelling::word_of))]
fn reserved(bytes: &[u8]) -> Option<Word>
    ensures { result ≡ word_of bytes.now }
{
    if bytes == b"constant".as_slice() {
        Some(Word::Constant)
    } else if bytes == b"namespace".as_slice() {
        Some(Word::Namespace)
    } else if bytes == b"pol".as_slice() {
        Some(Word::Pol)
    } else if bytes == b"commit".as_slice() {
        Some(Word::Commit)
    } else if bytes == b"public".as_slice() {
        Some(Word::Public)
    } else if bytes == b"in".as_slice() {
        Some(Word::In)
    } else if bytes == b"is".as_slice() {
        Some(Word::Is)
    } else {
        None
    }
}

/// Whether the bytes are a name.
pub fn is_name(bytes: &[u8]) -> bool
    ensures { IsTrue result ↔ IsName bytes.now }
{
    is_word_like(bytes) && reserved(bytes).is_none()
}

fn is_word_like(bytes: &[u8]) -> bool
    ensures { IsTrue result ↔ IsWordLike bytes.now }
{
    match bytes {
        [] => false,
        [first, rest @ ..] => begins_name(*first) && all_continue_name(rest),
    }
}

fn all_continue_name(bytes: &[u8]) -> bool
    ensures { result ≡ list_all continues_name bytes.now }
{
    bytes.iter().all(|b| continues_name(*b))
}

#[tactic(auto, unfolding(crate::specs::Spelling::mark_of))]
fn mark(byte: u8) -> Option<Mark>
    ensures { result ≡ mark_of byte }
{
    match byte {
        b'%' => Some(Mark::Percent),
        b'=' => Some(Mark::Equals),
        b';' => Some(Mark::Semicolon),
        b'(' => Some(Mark::OpenParen),
        b')' => Some(Mark::CloseParen),
        b'{' => Some(Mark::OpenBrace),
        b'}' => Some(Mark::CloseBrace),
        b'[' => Some(Mark::OpenBracket),
        b']' => Some(Mark::CloseBracket),
        b',' => Some(Mark::Comma),
        b'.' => Some(Mark::Dot),
        b'\'' => Some(Mark::Prime),
        b'+' => Some(Mark::Plus),
        b'-' => Some(Mark::Minus),
        b'*' => Some(Mark::Star),
        b':' => Some(Mark::Colon),
        _ => None,
    }
}

#[tactic(auto, using(crate::proofs::Fronts::fronts))]
fn name_len(text: &[u8]) -> usize
    ensures { result ≡ prefix_len continues_name text.now }
{
    text.iter().take_while(|b| continues_name(**b)).count()
}

#[tactic(auto, using(crate::proofs::Fronts::fronts))]
fn digits_len(radix: u8, text: &[u8]) -> usize
    ensures { result ≡ prefix_len (λ b. is_digit b radix) text.now }
{
    text.iter().take_while(|b| digit_value(**b) < radix).count()
}

#[tactic(auto, using(crate::proofs::Fronts::fronts))]
fn line_len(text: &[u8]) -> usize
    ensures value { result ≡ prefix_len (λ b. not (is_feed b)) text.now }
    ensures inside { result ≤ length text.now }
{
    text.iter().take_while(|b| **b != b'\n').count()
}

/// The letters, digits and `_` at the front.
#[tactic(auto, using(crate::proofs::Fronts::fronts))]
fn name_at(text: &[u8]) -> &[u8]
    ensures { result.now ≡ take_while continues_name text.now }
{
    &text[..name_len(text)]
}

/// The digits at the front.
#[tactic(auto, using(crate::proofs::Fronts::fronts))]
fn digits_at(radix: u8, text: &[u8]) -> &[u8]
    ensures { result.now ≡ digits_at radix text.now }
{
    &text[..digits_len(radix, text)]
}

/// The hexadecimal digits behind a `0x` at the front.
fn hexadecimal_at(text: &[u8]) -> &[u8]
    ensures { result.now ≡ hexadecimal_at text.now }
{
    match text {
        [b'0', b'x', rest @ ..] => digits_at(16, rest),
        _ => &[],
    }
}

/// The number that the digits write, where it is below the order of the field.
fn value(radix: u8, digits: &[u8]) -> Option<u64>
    requires { 1 ≤ radix }
    ensures { result ≡ (if nat_lt (digits_value radix digits.now) 18446744069414584321 then Some (digits_value radix digits.now) else None) }
{
    let mut number: u64 = 0;
    for digit in digits {
        let more = number as u128 * radix as u128 + digit_value(*digit) as u128;
        if more >= ORDER as u128 {
            return None;
        }
        number = more as u64;
    }
    Some(number)
}

fn numbered(radix: u8, digits: &[u8], size: usize) -> Piece
    requires { 1 ≤ radix }
    ensures { result ≡ numbered (digits_value radix digits.now) size }
{
    match value(radix, digits) {
        Some(number) => Piece::Whole(Token::Number(number), size),
        None => Piece::Broken(LexKind::NumberTooLarge),
    }
}

fn numeral(text: &[u8]) -> Piece
    ensures { result ≡ numeral text.now }
{
    let hexadecimal = hexadecimal_at(text);
    if hexadecimal.is_empty() {
        let decimal = digits_at(10, text);
        numbered(10, decimal, decimal.len())
    } else {
        numbered(16, hexadecimal, 2 + hexadecimal.len())
    }
}

/// How many bytes there are up to the end of the first `*/`.
fn closed(text: &[u8]) -> Option<usize>
    ensures value { result ≡ closed text.now }
    ensures inside { IfSome result (λ n. n ≤ length text.now) }
{
    let mut rest = text;
    let mut passed: usize = 0;
    loop {
        match rest {
            [b'*', b'/', ..] => return Some(passed + 2),
            [_, more @ ..] => {
                passed += 1;
                rest = more;
            }
            [] => return None,
        }
    }
}

/// The comment whose slash stands before these bytes.
fn comment(text: &[u8]) -> Piece
    ensures { result ≡ comment text.now }
{
    match text {
        [b'/', ..] => Piece::Blank(1 + line_len(text)),
        [b'*', inner @ ..] => match closed(inner) {
            Some(size) => Piece::Blank(size + 2),
            None => Piece::Broken(LexKind::BadByte),
        },
        _ => Piece::Broken(LexKind::BadByte),
    }
}

/// The name or reserved word at the front.
fn word_like(alloc: Global, text: &[u8]) -> Result<Piece, AllocError>
    requires { IsWordLike (take_while continues_name text.now) }
    ensures { IfOk result (λ p. p ≡ word_like (take_while continues_name text.now)) }
{
    let bytes = name_at(text);
    match reserved(bytes) {
        Some(word) => Ok(Piece::Whole(Token::Word(word), bytes.len())),
        None => {
            let name = Name::new(alloc, bytes)?;
            Ok(Piece::Whole(Token::Name(name), bytes.len()))
        }
    }
}

fn marked(byte: u8) -> Piece
    ensures { result ≡ marked (mark_of byte) }
{
    match mark(byte) {
        Some(mark) => Piece::Whole(Token::Mark(mark), 1),
        None => Piece::Broken(LexKind::BadByte),
    }
}

/// What begins at the front of the text: blanks, a token, or neither.
#[tactic(auto, unfolding(crate::specs::Tokens::begins), using(crate::proofs::Fronts::word_like_front))]
pub fn first_piece(alloc: Global, text: &[u8]) -> Result<Piece, AllocError>
    ensures { IfOk result (λ p. p ≡ begins text.now) }
{
    match text {
        [] => Ok(Piece::Broken(LexKind::BadByte)),
        [byte, rest @ ..] => {
            let byte = *byte;
            if is_blank(byte) {
                Ok(Piece::Blank(1))
            } else if byte == b'/' {
                Ok(comment(rest))
            } else if begins_name(byte) {
                word_like(alloc, text)
            } else if digit_value(byte) < 10 {
                Ok(numeral(text))
            } else {
                Ok(marked(byte))
            }
        }
    }
}
