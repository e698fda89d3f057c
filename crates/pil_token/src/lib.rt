//! The tokens of the constraint language: names, numbers, reserved words and marks, each with the
//! place where it begins. `tokens` reads a text, and answers what `lexed` says of it; `longest_token`
//! says what `lexed` means; `spell` writes a token back.
#![tactic(auto)]

mod laws;
mod piece;
mod reading;
mod spelling;
mod token;

pub use laws::{lexed_tokens, longest_token, spelled_tokens};
pub use piece::{first_piece, is_name};
pub use reading::tokens;
pub use spelling::spell;
pub use token::{LexErr, LexKind, Mark, Name, Piece, Placed, Token, Word};

#[cfg(test)]
mod tests;
