//! Expressions.
ghost use Rattle.std.specs.Prelude.{◌≡◌, ◌<◌, ◌≤◌, ◌+◌, ℕ, IfOk, MatchOption, List, length, nat_lt, if◌then◌else◌};
ghost use Rattle.pil_syntax.specs.Grammar.{limits};
ghost use Rattle.pil_syntax.specs.Shown.{term};
ghost use Rattle.pil_syntax.specs.State.{Around, Sum, Factor, factor_depth, sum_depth, around_depth, plain, first, in_fact, ref_name, fact_percent, fact_colon, want, have, settle, outer, added};
ghost use Rattle.pil_syntax.specs.Tree.{Sentence, Term, opp, group as grouped, ◌⊕◌, ◌⊖◌, ◌⊗◌};
ghost use Rattle.pil_syntax.specs.Machine.{run, fault, Leads, NoNesting, NoStar, NoSign, NoOperator, signed, signed_sum};
ghost use Rattle.pil_syntax.specs.declared.tree.SyntaxErrKind.TheVariants.{TooDeep};

use crate::failure::{ReadError, too_deep, unexpected};
use crate::pieces::{copied, ident, reference};
use crate::tree::{Expr, Ident, Number};
use pil_token::{Mark, Placed, Token};
use sqlite_items::Boxed;
use std::alloc::{AllocError, Global};

/// The operator of a sum.
#[derive(Clone, Copy, Debug)]
pub enum Sign {
    Plus,
    Minus,
}

fn neg(alloc: Global, a: Expr) -> Result<Expr, AllocError>
    ensures { IfOk result (λ e. term e ≡ opp (term a)) }
{
    Ok(Expr::Neg(Boxed::new(alloc, a)?))
}

fn group(alloc: Global, a: Expr) -> Result<Expr, AllocError>
    ensures { IfOk result (λ e. term e ≡ grouped (term a)) }
{
    Ok(Expr::Group(Boxed::new(alloc, a)?))
}

fn mul(alloc: Global, a: Expr, b: Expr) -> Result<Expr, AllocError>
    ensures { IfOk result (λ e. term e ≡ term a ⊗ term b) }
{
    Ok(Expr::Mul(Boxed::new(alloc, a)?, Boxed::new(alloc, b)?))
}

fn add(alloc: Global, sign: Sign, a: Expr, b: Expr) -> Result<Expr, AllocError>
    ensures { IfOk result (λ e. term e ≡ signed sign (term a) (term b)) }
{
    let a = Boxed::new(alloc, a)?;
    let b = Boxed::new(alloc, b)?;
    match sign {
        Sign::Plus => Ok(Expr::Add(a, b)),
        Sign::Minus => Ok(Expr::Sub(a, b)),
    }
}

/// What follows the operator of a sum, if one begins the tokens.
fn split_sign(tokens: &[Placed]) -> Option<(Sign, &[Placed])>
    ensures sign { MatchOption result (NoSign tokens.now) (λ x. (d : List Sentence) (k : Sum) (e : Term) (n : ℕ) → run limits d (have k e n) tokens.now ≡ (if nat_lt n 128 then run limits d (want (plain (signed_sum x.0 (added k e) (outer k))) (n + 1)) x.1.now else fault TooDeep (length tokens.now))) }
    ensures shorter { MatchOption result (length tokens.now ≤ length tokens.now) (λ x. length x.1.now < length tokens.now) }
{
    match tokens {
        [
            Placed {
                token: Token::Mark(Mark::Plus),
                ..
            },
            rest @ ..,
        ] => Some((Sign::Plus, rest)),
        [
            Placed {
                token: Token::Mark(Mark::Minus),
                ..
            },
            rest @ ..,
        ] => Some((Sign::Minus, rest)),
        _ => None,
    }
}

/// A reference, behind its first name.
fn column(alloc: Global, first: Ident, tokens: &[Placed]) -> Result<(Expr, &[Placed]), ReadError>
    ensures leads { (d : List Sentence) (k : Factor) (n : ℕ) → Leads limits d (λ x. settle k (term x.0) n) (λ x. x.1.now) (run limits d (ref_name (in_fact k n) first) tokens.now) result }
    ensures shorter { IfOk result (λ x. length x.1.now ≤ length tokens.now) }
{
    let (column, rest) = reference(alloc, first, tokens)?;
    Ok((Expr::Column(column), rest))
}

/// The name behind a `%`.
fn constant(alloc: Global, tokens: &[Placed]) -> Result<(Expr, &[Placed]), ReadError>
    ensures leads { (d : List Sentence) (k : Factor) (n : ℕ) → Leads limits d (λ x. settle k (term x.0) n) (λ x. x.1.now) (run limits d (fact_percent k n) tokens.now) result }
    ensures shorter { IfOk result (λ x. length x.1.now < length tokens.now) }
{
    let (name, rest) = ident(alloc, tokens)?;
    Ok((Expr::Constant(name), rest))
}

/// The name behind a `:`.
fn public(alloc: Global, tokens: &[Placed]) -> Result<(Expr, &[Placed]), ReadError>
    ensures leads { (d : List Sentence) (k : Factor) (n : ℕ) → Leads limits d (λ x. settle k (term x.0) n) (λ x. x.1.now) (run limits d (fact_colon k n) tokens.now) result }
    ensures shorter { IfOk result (λ x. length x.1.now < length tokens.now) }
{
    let (name, rest) = ident(alloc, tokens)?;
    Ok((Expr::Public(name), rest))
}

/// A number, a reference, `%name` or `:name`.
fn operand(alloc: Global, tokens: &[Placed]) -> Result<(Expr, &[Placed]), ReadError>
    requires { NoNesting tokens.now }
    ensures leads { (d : List Sentence) (k : Factor) (n : ℕ) → Leads limits d (λ x. settle k (term x.0) n) (λ x. x.1.now) (run limits d (want k n) tokens.now) result }
    ensures shorter { IfOk result (λ x. length x.1.now < length tokens.now) }
{
    match tokens {
        [
            Placed {
                token: Token::Number(value),
                at,
            },
            rest @ ..,
        ] => {
            Ok((
                Expr::Number(Number {
                    value: *value,
                    at: *at,
                }),
                rest,
            ))
        }
        [
            Placed {
                token: Token::Name(name),
                at,
            },
            rest @ ..,
        ] => column(alloc, copied(alloc, name, *at)?, rest),
        [
            Placed {
                token: Token::Mark(Mark::Percent),
                ..
            },
            rest @ ..,
        ] => constant(alloc, rest),
        [
            Placed {
                token: Token::Mark(Mark::Colon),
                ..
            },
            rest @ ..,
        ] => public(alloc, rest),
        _ => Err(unexpected(tokens)),
    }
}

#[cycle(parser)]
fn factor(
    alloc: Global,
    tokens: &[Placed],
    depth: u32,
    ops: u32,
) -> Result<(Expr, u32, &[Placed]), ReadError>
    ensures leads { (d : List Sentence) (k : Factor) → factor_depth k ≡ depth → Leads limits d (λ x. settle k (term x.0) x.1) (λ x. x.2.now) (run limits d (want k ops) tokens.now) result }
    ensures shorter { IfOk result (λ x. length x.2.now < length tokens.now) }
{
    match tokens {
        [
            Placed {
                token: Token::Mark(Mark::Minus),
                ..
            },
            rest @ ..,
        ] => {
            if depth >= 32 {
                return Err(too_deep(tokens));
            }
            let (value, ops, rest) = factor(alloc, rest, depth + 1, ops)?;
            let value = neg(alloc, value)?;
            Ok((value, ops, rest))
        }
        [
            Placed {
                token: Token::Mark(Mark::OpenParen),
                ..
            },
            rest @ ..,
        ] => {
            if depth >= 32 {
                return Err(too_deep(tokens));
            }
            let (value, ops, rest) = sum(alloc, rest, depth + 1, ops)?;
            match rest {
                [
                    Placed {
                        token: Token::Mark(Mark::CloseParen),
                        ..
                    },
                    rest @ ..,
                ] => {
                    let value = group(alloc, value)?;
                    Ok((value, ops, rest))
                }
                _ => Err(unexpected(rest)),
            }
        }
        _ => {
            let (value, rest) = operand(alloc, tokens)?;
            Ok((value, ops, rest))
        }
    }
}

#[cycle(parser)]
fn product(
    alloc: Global,
    tokens: &[Placed],
    depth: u32,
    ops: u32,
) -> Result<(Expr, u32, &[Placed]), ReadError>
    ensures leads { (d : List Sentence) (k : Sum) → sum_depth k ≡ depth → Leads limits d (λ x. have k (term x.0) x.1) (λ x. x.2.now) (run limits d (want (plain k) ops) tokens.now) result }
    ensures shorter { IfOk result (λ x. length x.2.now < length tokens.now) }
    ensures ends { IfOk result (λ x. NoStar x.2.now) }
{
    let (mut value, mut count, mut rest) = factor(alloc, tokens, depth, ops)?;
    'each: while let [
        Placed {
            token: Token::Mark(Mark::Star),
            ..
        },
        more @ ..,
    ] = rest
    {
        if count >= 128 {
            return Err(too_deep(rest));
        }
        let (other, ops, after) = factor(alloc, more, depth, count + 1)?;
        value = mul(alloc, value, other)?;
        count = ops;
        rest = after;
    }
    Ok((value, count, rest))
}

/// An expression, in so many open parentheses and prefix minuses and behind so many operators; with
/// it the operators up to its end.
#[cycle(parser)]
pub fn sum(
    alloc: Global,
    tokens: &[Placed],
    depth: u32,
    ops: u32,
) -> Result<(Expr, u32, &[Placed]), ReadError>
    ensures leads { (d : List Sentence) (k : Around) → around_depth k ≡ depth → Leads limits d (λ x. have (first k) (term x.0) x.1) (λ x. x.2.now) (run limits d (want (plain (first k)) ops) tokens.now) result }
    ensures shorter { IfOk result (λ x. length x.2.now < length tokens.now) }
    ensures ends { IfOk result (λ x. NoOperator x.2.now) }
{
    let (mut value, mut count, mut rest) = product(alloc, tokens, depth, ops)?;
    'each: while let Some((sign, more)) = split_sign(rest) {
        if count >= 128 {
            return Err(too_deep(rest));
        }
        let (other, ops, after) = product(alloc, more, depth, count + 1)?;
        value = add(alloc, sign, value, other)?;
        count = ops;
        rest = after;
    }
    Ok((value, count, rest))
}
