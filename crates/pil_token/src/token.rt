//! Tokens, their places, and why a text has none.
ghost use Rattle.std.specs.Prelude.{◌≡◌, IfOk};
ghost use Rattle.pil_token.specs.Spelling.{IsName};
ghost use Rattle.pil_token.specs.Refusal.{no_memory};

use std::alloc::{AllocError, AllocFailed, Global};
use std::marker::Model;

/// The words that are no names.
#[derive(Clone, Copy, Debug, PartialEq, Eq)]
pub enum Word {
    Constant,
    Namespace,
    Pol,
    Commit,
    Public,
    In,
    Is,
}

/// The tokens of one byte: `% = ; ( ) { } [ ] , . ' + - * :`.
#[derive(Clone, Copy, Debug, PartialEq, Eq)]
pub enum Mark {
    Percent,
    Equals,
    Semicolon,
    OpenParen,
    CloseParen,
    OpenBrace,
    CloseBrace,
    OpenBracket,
    CloseBracket,
    Comma,
    Dot,
    Prime,
    Plus,
    Minus,
    Star,
    Colon,
}

/// A name: a letter or `_`, then letters, digits and `_`, and no reserved word. Contracts see its
/// bytes.
#[derive(Debug, Drop)]
pub struct Name {
    bytes: Vec<u8>,
}

impl Model for Name {
    ghost use Rattle.std.specs.Prelude.{List, ℕ};
    ghost use Rattle.pil_token.specs.Spelling.{IsName};

    ghost Value = { List ℕ };

    ghost view = { λ n. n.bytes.items };

    ghost invariant = { λ n. IsName n.bytes.items };
}

impl Name {
    /// The name of these bytes.
    pub fn new(alloc: Global, bytes: &[u8]) -> Result<Name, AllocError>
        requires { IsName bytes.now }
        ensures { IfOk result (λ n. n ≡ bytes.now) }
    {
        let bytes = Vec::from_slice(alloc, bytes)?;
        Ok(Name { bytes })
    }

    /// The name of these bytes, which takes no memory.
    pub fn from_vec(bytes: Vec<u8>) -> Name
        requires { IsName bytes.items }
        ensures { result ≡ bytes.items }
    {
        Name { bytes }
    }

    /// The bytes, which takes no memory.
    pub fn into_vec(self) -> Vec<u8>
        ensures value { result.items ≡ self }
        ensures named { IsName self }
    {
        let Name { bytes } = self;
        bytes
    }

    /// The bytes of the name.
    pub fn bytes(&self) -> &[u8]
        ensures value { result.now ≡ self.now }
        ensures named { IsName self.now }
    {
        self.bytes.as_slice()
    }
}

/// A token. A number is below 18446744069414584321, the order of the field.
#[derive(Debug, Drop)]
pub enum Token {
    Name(Name),
    Number(u64),
    Word(Word),
    Mark(Mark),
}

/// A token and the offset of its first byte.
#[derive(Debug, Drop)]
pub struct Placed {
    pub token: Token,
    pub at: u64,
}

/// Why a text has no tokens.
#[derive(Clone, Copy, Debug, PartialEq, Eq)]
pub enum LexKind {
    /// A byte begins no token, or a `/*` isn't closed.
    BadByte,
    /// A number is 18446744069414584321 or more.
    NumberTooLarge,
    /// There was no memory for the tokens.
    NoMemory,
}

/// The refusal of a text: why, and the offset of the byte that begins no token or of the number. At
/// `NoMemory` the offset is 0.
#[derive(Clone, Copy, Debug, PartialEq, Eq)]
pub struct LexErr {
    pub kind: LexKind,
    pub at: u64,
}

impl From<AllocError> for LexErr {
    ghost from_gives = { λ _ e. e ≡ no_memory };

    fn from(_refused: AllocError) -> LexErr {
        LexErr {
            kind: LexKind::NoMemory,
            at: 0,
        }
    }
}

impl<T: Drop> From<AllocFailed<T>> for LexErr {
    ghost from_gives = { λ _ e. e ≡ no_memory };

    fn from(_refused: AllocFailed<T>) -> LexErr {
        LexErr {
            kind: LexKind::NoMemory,
            at: 0,
        }
    }
}

/// What begins at a place: so many bytes of blanks or a comment, a token of so many bytes, or neither.
#[derive(Debug, Drop)]
pub enum Piece {
    Blank(usize),
    Whole(Token, usize),
    Broken(LexKind),
}
