//! The single tokens of a statement, and references.
ghost use Rattle.std.specs.Prelude.{◌≡◌, ◌<◌, ◌≤◌, ℕ, IfOk, MatchResult, List, Option, Some, None, length};
ghost use Rattle.pil_syntax.specs.Grammar.{limits};
ghost use Rattle.pil_syntax.specs.State.{State, Holder, referred, ref_name, ref_spaced, ref_indexed, columns_name, columns_declared, ending, between};
ghost use Rattle.pil_syntax.specs.Tree.{Sentence};
ghost use Rattle.pil_syntax.specs.declared.tree.Number.{Number as NumberOf};
ghost use Rattle.pil_syntax.specs.declared.tree.Ident.{Ident as IdentOf};
ghost use Rattle.pil_syntax.specs.declared.tree.ColumnKind.{ColumnKind as ColumnKindOf};
ghost use Rattle.pil_syntax.specs.declared.tree.Declaration.{Declaration as DeclarationOf};
ghost use Rattle.pil_syntax.specs.Machine.{wish, AwaitsMark, behind_mark, AwaitsName, behind_name, AwaitsNumber, behind_number, run, Leads, Ends, refer, declaration};

use crate::failure::{ReadError, unexpected};
use crate::tree::{Ident, Number, Reference};
use pil_token::{Mark, Name, Placed, Token};
use std::alloc::{AllocError, Global};

/// The mark that is wanted.
pub fn mark(tokens: &[Placed], wanted: Mark) -> Result<&[Placed], ReadError>
    ensures leads { (d : List Sentence) (s : State) → AwaitsMark wanted (wish s) → Leads limits d (λ x. behind_mark (wish s)) (λ x. x.now) (run limits d s tokens.now) result }
    ensures shorter { IfOk result (λ x. length x.now < length tokens.now) }
{
    match tokens {
        [
            Placed {
                token: Token::Mark(found),
                ..
            },
            rest @ ..,
        ] if *found == wanted => Ok(rest),
        _ => Err(unexpected(tokens)),
    }
}

pub fn number(tokens: &[Placed]) -> Result<(Number, &[Placed]), ReadError>
    ensures leads { (d : List Sentence) (s : State) → AwaitsNumber (wish s) → Leads limits d (λ x. behind_number (wish s) x.0) (λ x. x.1.now) (run limits d s tokens.now) result }
    ensures shorter { IfOk result (λ x. length x.1.now < length tokens.now) }
{
    match tokens {
        [
            Placed {
                token: Token::Number(value),
                at,
            },
            rest @ ..,
        ] => Ok((
            Number {
                value: *value,
                at: *at,
            },
            rest,
        )),
        _ => Err(unexpected(tokens)),
    }
}

/// A copy of a token's name, with its place.
pub fn copied(alloc: Global, name: &Name, at: u64) -> Result<Ident, AllocError>
    ensures { IfOk result (λ x. x ≡ record { name = name.now; at = at }) }
{
    Ok(Ident {
        name: Name::new(alloc, name.bytes())?,
        at,
    })
}

pub fn ident(alloc: Global, tokens: &[Placed]) -> Result<(Ident, &[Placed]), ReadError>
    ensures leads { (d : List Sentence) (s : State) → AwaitsName (wish s) → Leads limits d (λ x. behind_name (wish s) x.0) (λ x. x.1.now) (run limits d s tokens.now) result }
    ensures shorter { IfOk result (λ x. length x.1.now < length tokens.now) }
{
    match tokens {
        [
            Placed {
                token: Token::Name(name),
                at,
            },
            rest @ ..,
        ] => Ok((copied(alloc, name, *at)?, rest)),
        _ => Err(unexpected(tokens)),
    }
}

/// The `;` of a statement.
pub fn semicolon(tokens: &[Placed]) -> Result<&[Placed], ReadError>
    ensures ends { (d : List Sentence) (q : Sentence) → Ends limits d (λ x. q) (λ x. x.now) (run limits d (ending q) tokens.now) result }
    ensures shorter { IfOk result (λ x. length x.now < length tokens.now) }
{
    match tokens {
        [
            Placed {
                token: Token::Mark(Mark::Semicolon),
                ..
            },
            rest @ ..,
        ] => Ok(rest),
        _ => Err(unexpected(tokens)),
    }
}

/// `.name` behind a name, or nothing.
fn qualified(
    alloc: Global,
    first: Ident,
    tokens: &[Placed],
) -> Result<(Option<Ident>, Ident, &[Placed]), ReadError>
    ensures leads { (d : List Sentence) (h : Holder) → Leads limits d (λ x. ref_spaced h x.0 x.1) (λ x. x.2.now) (run limits d (ref_name h first) tokens.now) result }
    ensures shorter { IfOk result (λ x. length x.2.now ≤ length tokens.now) }
{
    match tokens {
        [
            Placed {
                token: Token::Mark(Mark::Dot),
                ..
            },
            rest @ ..,
        ] => {
            let (name, rest) = ident(alloc, rest)?;
            Ok((Some(first), name, rest))
        }
        _ => Ok((None, first, tokens)),
    }
}

/// `[number]` behind a name, or nothing.
pub fn index(tokens: &[Placed]) -> Result<(Option<Number>, &[Placed]), ReadError>
    ensures leads { (d : List Sentence) (h : Holder) (s : Option IdentOf) (x : IdentOf) → Leads limits d (λ r. ref_indexed h s x r.0) (λ r. r.1.now) (run limits d (ref_spaced h s x) tokens.now) result }
    ensures declares { (d : List Sentence) (k : ColumnKindOf) (ds : List DeclarationOf) (x : IdentOf) → Leads limits d (λ r. columns_declared k ds (declaration x r.0)) (λ r. r.1.now) (run limits d (columns_name k ds x) tokens.now) result }
    ensures shorter { IfOk result (λ x. length x.1.now ≤ length tokens.now) }
{
    match tokens {
        [
            Placed {
                token: Token::Mark(Mark::OpenBracket),
                ..
            },
            rest @ ..,
        ] => {
            let (value, rest) = number(rest)?;
            let rest = mark(rest, Mark::CloseBracket)?;
            Ok((Some(value), rest))
        }
        _ => Ok((None, tokens)),
    }
}

/// `'`, or nothing.
fn prime(tokens: &[Placed]) -> (Option<u64>, &[Placed])
    ensures leads { (d : List Sentence) (h : Holder) (s : Option IdentOf) (x : IdentOf) (n : Option NumberOf) → run limits d (ref_indexed h s x n) tokens.now ≡ run limits d (referred h (refer s x n result.0)) result.1.now }
    ensures shorter { length result.1.now ≤ length tokens.now }
{
    match tokens {
        [
            Placed {
                token: Token::Mark(Mark::Prime),
                at,
            },
            rest @ ..,
        ] => (Some(*at), rest),
        _ => (None, tokens),
    }
}

/// A reference, behind its first name.
pub fn reference(
    alloc: Global,
    first: Ident,
    tokens: &[Placed],
) -> Result<(Reference, &[Placed]), ReadError>
    ensures leads { (d : List Sentence) (h : Holder) → Leads limits d (λ x. referred h x.0) (λ x. x.1.now) (run limits d (ref_name h first) tokens.now) result }
    ensures shorter { IfOk result (λ x. length x.1.now ≤ length tokens.now) }
{
    let (space, name, rest) = qualified(alloc, first, tokens)?;
    let (index, rest) = index(rest)?;
    let (next, rest) = prime(rest);
    Ok((
        Reference {
            space,
            name,
            index,
            next,
        },
        rest,
    ))
}
