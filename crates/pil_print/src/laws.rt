//! What is true of every printed text.
ghost use Rattle.pil_print.specs.Laws.{IsReadAsTokens, KeepsMeaning, ReadsBack};

use pil_ast::limit_laws;
use pil_meaning::{meaning_is_reading, unbroken_is_sound};
use pil_syntax::{moved_tokens, printed_parentheses};
use pil_token::spelled_tokens;

/// The law of printed tokens: where the names of statements are names and their numbers are below the
/// order of the field, their text has their tokens and no others. The call computes nothing.
pub fn printed_tokens()
    ensures tokens { IsReadAsTokens }
{
    spelled_tokens();
}

/// The law of printed meaning: what is printed of a text that is accepted is accepted, and means
/// what that text means. The call computes nothing.
pub fn printed_meaning()
    ensures meaning { KeepsMeaning }
{
    limit_laws();
    printed_parentheses();
    meaning_is_reading();
    unbroken_is_sound();
}

/// The law of reading back: the printed text of what a text means that is accepted has at most 2^20
/// `;`, `,` and `{`, and has tokens, which are a file within the limits that breaks no rule and means
/// the same. The call computes nothing.
pub fn printed_text()
    ensures text { ReadsBack }
{
    spelled_tokens();
    moved_tokens();
    limit_laws();
    printed_parentheses();
    meaning_is_reading();
    unbroken_is_sound();
}
