//! What the definition of the tokens means in words, as laws that are proved of every text.
ghost use Rattle.std.specs.Prelude.{◌<◌, ◌≤◌, length};
ghost use Rattle.pil_token.specs.Tokens.{begins, size};
ghost use Rattle.pil_token.specs.Longest.{IsFront};
ghost use Rattle.pil_token.specs.Spelled.{ApartLexes, BlankLexes, SpellingContinues, SpellingLexes, TextHasTokens, WholeLexes};

/// The law of the longest token, whatever the text: `begins` takes the most bytes at the front that
/// spell a token, a blank or a comment where one stands there, and nothing exactly where neither
/// does; and it takes a byte at least. The call computes nothing.
pub fn longest_token(text: &[u8])
    ensures longest { 0 < length text.now → IsFront text.now (begins text.now) }
    ensures within { 0 < length text.now → (0 < size (begins text.now)) × (size (begins text.now) ≤ length text.now) }
{
    let _ = text;
}

/// The law of tokens: each token that is read of a text, whatever the text, is a reserved word, a mark,
/// a name whose bytes are one, or a number below the order of the field. The call computes nothing.
pub fn lexed_tokens()
    ensures tokens { TextHasTokens }
{}

/// The law of spelling: a token's spelling is that token, a blank is none, texts that are apart are read
/// one after the other, and a text with nothing behind it has its tokens alone. All spellings but those
/// of marks are letters, digits and `_`. The call computes nothing.
pub fn spelled_tokens()
    ensures spelling { SpellingLexes }
    ensures blank { BlankLexes }
    ensures apart { ApartLexes }
    ensures whole { WholeLexes }
    ensures continues { SpellingContinues }
{}
