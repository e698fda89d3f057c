//! Statements that declare: constants, namespaces, polynomials and publics.
ghost use Rattle.std.specs.Prelude.{◌≡◌, ◌<◌, ◌≤◌, ℕ, IfOk, List, [], length};
ghost use Rattle.pil_syntax.specs.Grammar.{limits};
ghost use Rattle.pil_syntax.specs.Shown.{sentence};
ghost use Rattle.pil_syntax.specs.State.{State, constant_word, namespace_word, namespace_paren, namespace_size, pol_word, columns_word, columns_declared, intermediate_name, public_word, public_column, ending};
ghost use Rattle.pil_syntax.specs.Tree.{Sentence, public_is};
ghost use Rattle.pil_syntax.specs.declared.tree.Ident.{Ident as IdentOf};
ghost use Rattle.pil_syntax.specs.declared.tree.Reference.{Reference as ReferenceOf};
ghost use Rattle.pil_syntax.specs.declared.tree.ColumnKind.{ColumnKind as ColumnKindOf};
ghost use Rattle.pil_syntax.specs.declared.tree.Declaration.{Declaration as DeclarationOf};
ghost use Rattle.pil_syntax.specs.Machine.{run, Leads, Ends};

use crate::expression::sum;
use crate::failure::{ReadError, unexpected};
use crate::pieces::{copied, ident, index, mark, number, reference, semicolon};
use crate::tree::{ColumnKind, Declaration, Ident, Number, Size, Statement};
use pil_token::{Mark, Placed, Token, Word};
use sqlite_items::Items;
use std::alloc::Global;

/// `%name = value;` behind `constant`.
pub fn constant(alloc: Global, tokens: &[Placed]) -> Result<(Statement, &[Placed]), ReadError>
    ensures ends { (d : List Sentence) → Ends limits d (λ x. sentence x.0) (λ x. x.1.now) (run limits d constant_word tokens.now) result }
    ensures shorter { IfOk result (λ x. length x.1.now < length tokens.now) }
{
    let rest = mark(tokens, Mark::Percent)?;
    let (name, rest) = ident(alloc, rest)?;
    let rest = mark(rest, Mark::Equals)?;
    let (value, rest) = number(rest)?;
    let rest = semicolon(rest)?;
    Ok((Statement::Constant { name, value }, rest))
}

/// A number or `%name`.
fn size(alloc: Global, tokens: &[Placed]) -> Result<(Size, &[Placed]), ReadError>
    ensures leads { (d : List Sentence) (x : IdentOf) → Leads limits d (λ r. namespace_size x r.0) (λ r. r.1.now) (run limits d (namespace_paren x) tokens.now) result }
    ensures shorter { IfOk result (λ x. length x.1.now < length tokens.now) }
{
    match tokens {
        [
            Placed {
                token: Token::Number(value),
                at,
            },
            rest @ ..,
        ] => {
            Ok((
                Size::Number(Number {
                    value: *value,
                    at: *at,
                }),
                rest,
            ))
        }
        [
            Placed {
                token: Token::Mark(Mark::Percent),
                ..
            },
            rest @ ..,
        ] => {
            let (name, rest) = ident(alloc, rest)?;
            Ok((Size::Constant(name), rest))
        }
        _ => Err(unexpected(tokens)),
    }
}

/// `name(size);` behind `namespace`.
pub fn namespace(alloc: Global, tokens: &[Placed]) -> Result<(Statement, &[Placed]), ReadError>
    ensures ends { (d : List Sentence) → Ends limits d (λ x. sentence x.0) (λ x. x.1.now) (run limits d namespace_word tokens.now) result }
    ensures shorter { IfOk result (λ x. length x.1.now < length tokens.now) }
{
    let (name, rest) = ident(alloc, tokens)?;
    let rest = mark(rest, Mark::OpenParen)?;
    let (size, rest) = size(alloc, rest)?;
    let rest = mark(rest, Mark::CloseParen)?;
    let rest = semicolon(rest)?;
    Ok((Statement::Namespace { name, size }, rest))
}

fn declaration(alloc: Global, tokens: &[Placed]) -> Result<(Declaration, &[Placed]), ReadError>
    ensures leads { (d : List Sentence) (k : ColumnKindOf) (ds : List DeclarationOf) → Leads limits d (λ x. columns_declared k ds x.0) (λ x. x.1.now) (run limits d (columns_word k ds) tokens.now) result }
    ensures shorter { IfOk result (λ x. length x.1.now < length tokens.now) }
{
    let (name, rest) = ident(alloc, tokens)?;
    let (length, rest) = index(rest)?;
    Ok((Declaration { name, length }, rest))
}

/// The declarations behind `pol constant` or `pol commit`, up to the `;`.
fn columns(
    alloc: Global,
    kind: ColumnKind,
    tokens: &[Placed],
) -> Result<(Statement, &[Placed]), ReadError>
    ensures ends { (d : List Sentence) → Ends limits d (λ x. sentence x.0) (λ x. x.1.now) (run limits d (columns_word kind []) tokens.now) result }
    ensures shorter { IfOk result (λ x. length x.1.now < length tokens.now) }
{
    let mut declarations: Items<Declaration> = Items::new(alloc);
    let mut rest = tokens;
    'each: loop {
        let (declaration, after) = declaration(alloc, rest)?;
        declarations.push(declaration)?;
        match after {
            [
                Placed {
                    token: Token::Mark(Mark::Comma),
                    ..
                },
                more @ ..,
            ] => rest = more,
            [
                Placed {
                    token: Token::Mark(Mark::Semicolon),
                    ..
                },
                more @ ..,
            ] => {
                return Ok((Statement::Columns { kind, declarations }, more));
            }
            _ => return Err(unexpected(after)),
        }
    }
}

/// `= value;` behind `pol name`.
fn intermediate(
    alloc: Global,
    name: Ident,
    tokens: &[Placed],
) -> Result<(Statement, &[Placed]), ReadError>
    ensures ends { (d : List Sentence) → Ends limits d (λ x. sentence x.0) (λ x. x.1.now) (run limits d (intermediate_name name) tokens.now) result }
    ensures shorter { IfOk result (λ x. length x.1.now < length tokens.now) }
{
    let rest = mark(tokens, Mark::Equals)?;
    let (value, _, rest) = sum(alloc, rest, 0, 0)?;
    match rest {
        [
            Placed {
                token: Token::Mark(Mark::Semicolon),
                ..
            },
            rest @ ..,
        ] => { Ok((Statement::Intermediate { name, value }, rest)) }
        _ => Err(unexpected(rest)),
    }
}

/// What stands behind `pol`.
pub fn pol(alloc: Global, tokens: &[Placed]) -> Result<(Statement, &[Placed]), ReadError>
    ensures ends { (d : List Sentence) → Ends limits d (λ x. sentence x.0) (λ x. x.1.now) (run limits d pol_word tokens.now) result }
    ensures shorter { IfOk result (λ x. length x.1.now < length tokens.now) }
{
    match tokens {
        [
            Placed {
                token: Token::Word(Word::Constant),
                ..
            },
            rest @ ..,
        ] => columns(alloc, ColumnKind::Constant, rest),
        [
            Placed {
                token: Token::Word(Word::Commit),
                ..
            },
            rest @ ..,
        ] => columns(alloc, ColumnKind::Commit, rest),
        [
            Placed {
                token: Token::Name(name),
                at,
            },
            rest @ ..,
        ] => intermediate(alloc, copied(alloc, name, *at)?, rest),
        _ => Err(unexpected(tokens)),
    }
}

/// `(row)` behind the column of a public.
fn row(tokens: &[Placed]) -> Result<(Number, &[Placed]), ReadError>
    ensures leads { (d : List Sentence) (x : IdentOf) (r : ReferenceOf) → Leads limits d (λ n. ending (public_is x r n.0)) (λ n. n.1.now) (run limits d (public_column x r) tokens.now) result }
    ensures shorter { IfOk result (λ x. length x.1.now < length tokens.now) }
{
    let rest = mark(tokens, Mark::OpenParen)?;
    let (row, rest) = number(rest)?;
    let rest = mark(rest, Mark::CloseParen)?;
    Ok((row, rest))
}

/// `name = column(row);` behind `public`.
pub fn public(alloc: Global, tokens: &[Placed]) -> Result<(Statement, &[Placed]), ReadError>
    ensures ends { (d : List Sentence) → Ends limits d (λ x. sentence x.0) (λ x. x.1.now) (run limits d public_word tokens.now) result }
    ensures shorter { IfOk result (λ x. length x.1.now < length tokens.now) }
{
    let (name, rest) = ident(alloc, tokens)?;
    let rest = mark(rest, Mark::Equals)?;
    let (first, rest) = ident(alloc, rest)?;
    let (column, rest) = reference(alloc, first, rest)?;
    let (row, rest) = row(rest)?;
    let rest = semicolon(rest)?;
    Ok((Statement::Public { name, column, row }, rest))
}
