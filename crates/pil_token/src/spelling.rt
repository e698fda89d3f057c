//! Tokens written back.
ghost use Rattle.std.specs.Prelude.{◌≡◌, ◌∷◌, ◌++◌, [], OnOk, OnErr};
ghost use Rattle.pil_token.specs.Spelling.{word_bytes, mark_byte};
ghost use Rattle.pil_token.specs.Spelled.{IsToken, LexesTo, spelling};

use crate::token::{Mark, Token, Word};
use itoa::Buffer;
use std::alloc::AllocError;

impl Word {
    /// The letters of the word.
    pub fn bytes(self) -> &'static [u8]
        ensures { result.now ≡ word_bytes self }
    {
        match self {
            Word::Constant => b"constant",
            Word::Namespace => b"namespace",
            Word::Pol => b"pol",
            Word::Commit => b"commit",
            Word::Public => b"public",
            Word::In => b"in",
            Word::Is => b"is",
        }
    }
}

impl Mark {
    /// The byte of the mark.
    pub fn byte(self) -> u8
        ensures { result ≡ mark_byte self }
    {
        match self {
            Mark::Percent => b'%',
            Mark::Equals => b'=',
            Mark::Semicolon => b';',
            Mark::OpenParen => b'(',
            Mark::CloseParen => b')',
            Mark::OpenBrace => b'{',
            Mark::CloseBrace => b'}',
            Mark::OpenBracket => b'[',
            Mark::CloseBracket => b']',
            Mark::Comma => b',',
            Mark::Dot => b'.',
            Mark::Prime => b'\'',
            Mark::Plus => b'+',
            Mark::Minus => b'-',
            Mark::Star => b'*',
            Mark::Colon => b':',
        }
    }
}

/// Writes the token behind what is there, a number in decimal. In front of bytes with which no name
/// or number goes on, what is written is read as the token again. On an error nothing is written.
#[tactic(auto, using(crate::proofs::Spelled::spelling_lexes))]
pub fn spell(token: &Token, text: &mut Vec<u8>) -> Result<(), AllocError>
    ensures written { OnOk result (text.new.items ≡ text.old.items ++ spelling token.now) }
    ensures unchanged { OnErr result (text.new.items ≡ text.old.items) }
    ensures read_back { IsToken token.now → LexesTo (spelling token.now) (token.now ∷ []) }
{
    match token {
        Token::Name(name) => text.extend_from_slice(name.bytes()),
        Token::Number(number) => text.extend_from_slice(Buffer::new().format(*number).as_bytes()),
        Token::Word(word) => text.extend_from_slice(word.bytes()),
        Token::Mark(mark) => text.push(mark.byte()).map_err(AllocError::from),
    }
}
