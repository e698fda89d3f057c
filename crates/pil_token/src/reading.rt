//! The tokens of a text, one after another.
ghost use Rattle.std.specs.Prelude.{◌≡◌, IfOk, IfErr, Ok, All};
ghost use Rattle.pil_token.specs.Spelled.{IsToken};
ghost use Rattle.pil_token.specs.Tokens.{lexed, Refuses};

use crate::piece::first_piece;
use crate::token::{LexErr, Piece, Placed};
use std::alloc::Global;

/// The tokens of the text, each with the offset of its first byte. Blanks are space, tab, line feed
/// and carriage return; comments are `//` to the line's end and `/* .. */`.
///
/// Refused is the first place at which no token begins or a number is 18446744069414584321 or more.
pub fn tokens(alloc: Global, text: &[u8]) -> Result<Vec<Placed>, LexErr>
    ensures read { IfOk result (λ ts. lexed text.now ≡ Ok ts.items) }
    ensures valid { IfOk result (λ ts. All (λ t. IsToken t.token) ts.items) }
    ensures refused { IfErr result (λ e. Refuses (lexed text.now) e.kind e.at) }
{
    let mut found = Vec::new(alloc);
    let mut rest = text;
    let mut at: u64 = 0;
    'pieces: while !rest.is_empty() {
        match first_piece(alloc, rest)? {
            Piece::Blank(size) => {
                rest = rest.split_at(size).1;
                at += size as u64;
            }
            Piece::Whole(token, size) => {
                found.push(Placed { token, at })?;
                rest = rest.split_at(size).1;
                at += size as u64;
            }
            Piece::Broken(kind) => {
                return Err(LexErr { kind, at });
            }
        }
    }
    Ok(found)
}
