//! Files: statements, one after another.
ghost use Rattle.std.specs.Prelude.{◌≡◌, ◌<◌, ◌-◌, ℕ, IfOk, IfErr, MatchResult, List, [], ◌∷◌, Bool, true, false, ⊤, drop, length};
ghost use Rattle.pil_syntax.specs.declared.tree.SyntaxErr.{SyntaxErr as SyntaxErrOf};
ghost use Rattle.pil_syntax.specs.Grammar.{limits};
ghost use Rattle.pil_syntax.specs.Refusal.{Reads, Refuses, UnlessMemory, place};
ghost use Rattle.pil_syntax.specs.Shown.{sentence, sentences};
ghost use Rattle.pil_syntax.specs.State.{between};
ghost use Rattle.pil_syntax.specs.Tree.{Sentence};
ghost use Rattle.pil_syntax.specs.declared.tree.SyntaxErrKind.TheVariants.{NoMemory};
ghost use Rattle.pil_syntax.specs.Machine.{run, has_namespace, begun_after, Ends, Gives, StartsInner, refusal_of};

use crate::declaring::{constant, namespace, pol, public};
use crate::failure::{Fault, ReadError, unexpected};
use crate::line::{line, line_of_brace};
use crate::tree::{Selector, Statement, Syntax, SyntaxErr, SyntaxErrKind};
use pil_token::{Mark, Placed, Token, Word};
use sqlite_items::Items;
use std::alloc::Global;

/// A statement that wants a namespace before it.
fn inner(alloc: Global, tokens: &[Placed]) -> Result<(Statement, &[Placed]), ReadError>
    requires { StartsInner tokens.now }
    ensures ends { (d : List Sentence) → has_namespace d ≡ true → Ends limits d (λ x. sentence x.0) (λ x. x.1.now) (run limits d between tokens.now) result }
    ensures shorter { IfOk result (λ x. length x.1.now < length tokens.now) }
{
    match tokens {
        [
            Placed {
                token: Token::Word(Word::Pol),
                ..
            },
            rest @ ..,
        ] => pol(alloc, rest),
        [
            Placed {
                token: Token::Word(Word::Public),
                ..
            },
            rest @ ..,
        ] => public(alloc, rest),
        [
            Placed {
                token: Token::Mark(Mark::OpenBrace),
                at,
            },
            rest @ ..,
        ] => line_of_brace(alloc, Selector::Every, *at, rest),
        _ => line(alloc, tokens),
    }
}

/// A statement, where a namespace stands before it or not.
fn statement(
    alloc: Global,
    tokens: &[Placed],
    begun: bool,
) -> Result<(Statement, &[Placed]), ReadError>
    requires { 0 < length tokens.now }
    ensures ends { (d : List Sentence) → has_namespace d ≡ begun → Ends limits d (λ x. sentence x.0) (λ x. x.1.now) (run limits d between tokens.now) result }
    ensures shorter { IfOk result (λ x. length x.1.now < length tokens.now) }
{
    match tokens {
        [
            Placed {
                token: Token::Word(Word::Constant),
                ..
            },
            rest @ ..,
        ] => constant(alloc, rest),
        [
            Placed {
                token: Token::Word(Word::Namespace),
                ..
            },
            rest @ ..,
        ] => namespace(alloc, rest),
        _ => {
            if begun {
                inner(alloc, tokens)
            } else {
                Err(unexpected(tokens))
            }
        }
    }
}

/// Whether a namespace stands before what follows the statement.
fn begun_behind(begun: bool, statement: &Statement) -> bool
    ensures { result ≡ begun_after begun (sentence statement.now) }
{
    match statement {
        Statement::Namespace { .. } => true,
        _ => begun,
    }
}

/// The statements of a file.
fn file(alloc: Global, tokens: &[Placed]) -> Result<Syntax, ReadError>
    ensures { Gives sentences result (run limits [] between tokens.now) }
{
    let mut statements: Items<Statement> = Items::new(alloc);
    let mut begun = false;
    let mut rest = tokens;
    'each: while !rest.is_empty() {
        let (statement, after) = statement(alloc, rest, begun)?;
        begun = begun_behind(begun, &statement);
        statements.push(statement)?;
        rest = after;
    }
    Ok(Syntax { statements })
}

/// The place of the first token, or the text's end.
fn first_place(tokens: &[Placed], end: u64) -> u64
    ensures { result ≡ place end tokens.now }
{
    match tokens {
        [first, ..] => first.at,
        [] => end,
    }
}

/// The place of the token where so many are left, or the text's end.
fn place_of(tokens: &[Placed], end: u64, left: usize) -> u64
    ensures { result ≡ place end (drop (length tokens.now - left) tokens.now) }
{
    let passed = tokens.len().saturating_sub(left);
    first_place(&tokens[passed..], end)
}

fn error_at(tokens: &[Placed], end: u64, error: ReadError) -> SyntaxErr
    ensures { result ≡ refusal_of end tokens.now error }
{
    match error {
        ReadError::Memory => SyntaxErr {
            kind: SyntaxErrKind::NoMemory,
            at: 0,
        },
        ReadError::Fault(fault) => SyntaxErr {
            kind: fault.kind,
            at: place_of(tokens, end, fault.left),
        },
    }
}

/// The statements that the tokens of a file spell, by the grammar in specs/Spelling.antt and
/// specs/Grammar.antt: parentheses and prefix minuses are nested at most 32 deep, and an expression has at
/// most 128 operators. `end` is the length of the text.
/// Errors: `Unexpected` and `TooDeep` at the first token up to which the tokens begin no such file,
/// and `NoMemory` at 0.
pub fn read_syntax(alloc: Global, tokens: &[Placed], end: u64) -> Result<Syntax, SyntaxErr>
    // What is read is a file within the limits, spelled by these tokens.
    ensures found { IfOk result (λ s. Reads limits tokens.now (sentences s)) }
    // What is refused is refused at the first token up to which no such file begins so.
    ensures refused { IfErr result (λ e. UnlessMemory e.kind (Refuses limits tokens.now end e)) }
    // Every other reading is this one.
    ensures only { (ss : List Sentence) → Reads limits tokens.now ss → MatchResult result (λ s. sentences s ≡ ss) (λ e. UnlessMemory e.kind ⊥) }
    // And so is every other refusal.
    ensures first { (e : SyntaxErrOf) → Refuses limits tokens.now end e → MatchResult result (λ s. ⊥) (λ f. UnlessMemory f.kind (f ≡ e)) }
    // Want of memory has no place.
    ensures memory { IfErr result (λ e. e.kind ≡ NoMemory → e.at ≡ 0) }
{
    match file(alloc, tokens) {
        Ok(syntax) => Ok(syntax),
        Err(error) => Err(error_at(tokens, end, error)),
    }
}
