//! Lines: identities, and lists in lists or of equal counts.
ghost use Rattle.std.specs.Prelude.{◌≡◌, ◌<◌, ◌≤◌, ℕ, IfOk, MatchOption, List, [], ◌∷◌, Option, map, option_map, length};
ghost use Rattle.pil_syntax.specs.Grammar.{limits};
ghost use Rattle.pil_syntax.specs.Shown.{term, filter_of, tuple, sentence};
ghost use Rattle.pil_syntax.specs.State.{State, Joint, in_filter, ref_name, opening, among, inside, against, leftmost, right, picked, first, plain, want, have, entering, listed, list_wanted, list_brace, first_list, left_lists, right_lists};
ghost use Rattle.pil_syntax.specs.Tree.{Sentence, Filter, every, by_group, Tuple};
ghost use Rattle.pil_syntax.specs.Machine.{run, Leads, Ends, NoOperator, NoPlus, NoJoiner, joined_by, tuple_of, selector_of};

use crate::expression::sum;
use crate::failure::{ReadError, unexpected};
use crate::pieces::{copied, reference, semicolon};
use crate::tree::{Expr, ExprList, Ident, Selector, Statement};
use pil_token::{Mark, Placed, Token, Word};
use sqlite_items::Items;
use std::alloc::{AllocError, Global};

/// The entries of a list behind its `{`, to the `}`.
fn entries(alloc: Global, tokens: &[Placed]) -> Result<(Items<Expr>, &[Placed]), ReadError>
    ensures leads { (d : List Sentence) (j : Joint) (f : Filter) (i : ℕ) → Leads limits d (λ x. listed j (tuple_of f i (map term x.0))) (λ x. x.1.now) (run limits d (entering j f i []) tokens.now) result }
    ensures shorter { IfOk result (λ x. length x.1.now < length tokens.now) }
{
    let mut entries: Items<Expr> = Items::new(alloc);
    let mut rest = tokens;
    'each: loop {
        let (value, _, after) = sum(alloc, rest, 0, 0)?;
        entries.push(value)?;
        match after {
            [
                Placed {
                    token: Token::Mark(Mark::Comma),
                    ..
                },
                more @ ..,
            ] => rest = more,
            [
                Placed {
                    token: Token::Mark(Mark::CloseBrace),
                    ..
                },
                more @ ..,
            ] => return Ok((entries, more)),
            _ => return Err(unexpected(after)),
        }
    }
}

/// A list behind its `{`, which stands at this place and has this selector.
fn list_of_brace(
    alloc: Global,
    selector: Selector,
    at: u64,
    tokens: &[Placed],
) -> Result<(ExprList, &[Placed]), ReadError>
    ensures leads { (d : List Sentence) (j : Joint) → Leads limits d (λ x. listed j (tuple x.0)) (λ x. x.1.now) (run limits d (entering j (filter_of selector) at []) tokens.now) result }
    ensures shorter { IfOk result (λ x. length x.1.now < length tokens.now) }
{
    let (entries, rest) = entries(alloc, tokens)?;
    Ok((
        ExprList {
            selector,
            at,
            entries,
        },
        rest,
    ))
}

/// The `{` behind a selector, and its place.
fn brace(tokens: &[Placed]) -> Result<(u64, &[Placed]), ReadError>
    ensures leads { (d : List Sentence) (j : Joint) (f : Filter) → Leads limits d (λ x. entering j f x.0 []) (λ x. x.1.now) (run limits d (list_brace j f) tokens.now) result }
    ensures shorter { IfOk result (λ x. length x.1.now < length tokens.now) }
{
    match tokens {
        [
            Placed {
                token: Token::Mark(Mark::OpenBrace),
                at,
            },
            rest @ ..,
        ] => Ok((*at, rest)),
        _ => Err(unexpected(tokens)),
    }
}

/// The expression of a selector behind its `(`, to the `)`.
fn condition(alloc: Global, tokens: &[Placed]) -> Result<(Expr, &[Placed]), ReadError>
    ensures leads { (d : List Sentence) (j : Joint) → Leads limits d (λ x. list_brace j (by_group (term x.0))) (λ x. x.1.now) (run limits d (want (plain (first (picked j))) 0) tokens.now) result }
    ensures shorter { IfOk result (λ x. length x.1.now < length tokens.now) }
{
    let (value, _, rest) = sum(alloc, tokens, 1, 0)?;
    match rest {
        [
            Placed {
                token: Token::Mark(Mark::CloseParen),
                ..
            },
            rest @ ..,
        ] => Ok((value, rest)),
        _ => Err(unexpected(rest)),
    }
}

/// A list behind the first name of its selector.
fn list_of_column(
    alloc: Global,
    first: Ident,
    tokens: &[Placed],
) -> Result<(ExprList, &[Placed]), ReadError>
    ensures leads { (d : List Sentence) (j : Joint) → Leads limits d (λ x. listed j (tuple x.0)) (λ x. x.1.now) (run limits d (ref_name (in_filter j) first) tokens.now) result }
    ensures shorter { IfOk result (λ x. length x.1.now < length tokens.now) }
{
    let (column, rest) = reference(alloc, first, tokens)?;
    let (at, rest) = brace(rest)?;
    list_of_brace(alloc, Selector::Column(column), at, rest)
}

/// A list behind the `(` of its selector.
fn list_of_group(alloc: Global, tokens: &[Placed]) -> Result<(ExprList, &[Placed]), ReadError>
    ensures leads { (d : List Sentence) (j : Joint) → Leads limits d (λ x. listed j (tuple x.0)) (λ x. x.1.now) (run limits d (want (plain (first (picked j))) 0) tokens.now) result }
    ensures shorter { IfOk result (λ x. length x.1.now < length tokens.now) }
{
    let (value, rest) = condition(alloc, tokens)?;
    let (at, rest) = brace(rest)?;
    list_of_brace(alloc, Selector::Group(value), at, rest)
}

/// A list with its selector, but not a line's first.
fn list(alloc: Global, tokens: &[Placed]) -> Result<(ExprList, &[Placed]), ReadError>
    ensures leads { (d : List Sentence) (j : Joint) → Leads limits d (λ x. listed j (tuple x.0)) (λ x. x.1.now) (run limits d (list_wanted j) tokens.now) result }
    ensures shorter { IfOk result (λ x. length x.1.now < length tokens.now) }
{
    match tokens {
        [
            Placed {
                token: Token::Mark(Mark::OpenBrace),
                at,
            },
            rest @ ..,
        ] => list_of_brace(alloc, Selector::Every, *at, rest),
        [
            Placed {
                token: Token::Name(name),
                at,
            },
            rest @ ..,
        ] => list_of_column(alloc, copied(alloc, name, *at)?, rest),
        [
            Placed {
                token: Token::Mark(Mark::OpenParen),
                ..
            },
            rest @ ..,
        ] => list_of_group(alloc, rest),
        _ => Err(unexpected(tokens)),
    }
}

/// These lists, and those that follow with a `+` between them.
fn summands(
    alloc: Global,
    lists: Items<ExprList>,
    tokens: &[Placed],
) -> Result<(Items<ExprList>, &[Placed]), ReadError>
    ensures left { (d : List Sentence) → Leads limits d (λ x. left_lists (map tuple x.0)) (λ x. x.1.now) (run limits d (list_wanted (among (map tuple lists))) tokens.now) result }
    ensures right { (d : List Sentence) (ls : List Tuple) → Leads limits d (λ x. right_lists ls (map tuple x.0)) (λ x. x.1.now) (run limits d (list_wanted (against ls (map tuple lists))) tokens.now) result }
    ensures shorter { IfOk result (λ x. length x.1.now < length tokens.now) }
    ensures ends { IfOk result (λ x. NoPlus x.1.now) }
{
    let mut lists = lists;
    let mut rest = tokens;
    'each: loop {
        let (list, after) = list(alloc, rest)?;
        lists.push(list)?;
        match after {
            [
                Placed {
                    token: Token::Mark(Mark::Plus),
                    ..
                },
                more @ ..,
            ] => rest = more,
            _ => return Ok((lists, after)),
        }
    }
}

/// The right side of a line behind `is`, whose left side is given.
fn bus(
    alloc: Global,
    left: Items<ExprList>,
    tokens: &[Placed],
) -> Result<(Statement, &[Placed]), ReadError>
    ensures ends { (d : List Sentence) → Ends limits d (λ x. sentence x.0) (λ x. x.1.now) (run limits d (list_wanted (against (map tuple left) [])) tokens.now) result }
    ensures shorter { IfOk result (λ x. length x.1.now < length tokens.now) }
{
    let (right, rest) = summands(alloc, Items::new(alloc), tokens)?;
    let rest = semicolon(rest)?;
    Ok((Statement::Bus { left, right }, rest))
}

/// The right side of a line behind `in`, whose left side is given.
fn lookup(
    alloc: Global,
    left: ExprList,
    tokens: &[Placed],
) -> Result<(Statement, &[Placed]), ReadError>
    ensures ends { (d : List Sentence) → Ends limits d (λ x. sentence x.0) (λ x. x.1.now) (run limits d (list_wanted (inside (tuple left))) tokens.now) result }
    ensures shorter { IfOk result (λ x. length x.1.now < length tokens.now) }
{
    let (right, rest) = list(alloc, tokens)?;
    let rest = semicolon(rest)?;
    Ok((Statement::Lookup { left, right }, rest))
}

/// A line of two or more lists on its left side, behind the first and its `+`.
fn sum_of_lists(
    alloc: Global,
    lists: Items<ExprList>,
    tokens: &[Placed],
) -> Result<(Statement, &[Placed]), ReadError>
    ensures ends { (d : List Sentence) → Ends limits d (λ x. sentence x.0) (λ x. x.1.now) (run limits d (list_wanted (among (map tuple lists))) tokens.now) result }
    ensures shorter { IfOk result (λ x. length x.1.now < length tokens.now) }
{
    let (left, rest) = summands(alloc, lists, tokens)?;
    match rest {
        [
            Placed {
                token: Token::Word(Word::Is),
                ..
            },
            rest @ ..,
        ] => bus(alloc, left, rest),
        _ => Err(unexpected(rest)),
    }
}

fn one(alloc: Global, list: ExprList) -> Result<Items<ExprList>, AllocError>
    ensures { IfOk result (λ x. map tuple x ≡ tuple list ∷ []) }
{
    let mut lists: Items<ExprList> = Items::new(alloc);
    lists.push(list)?;
    Ok(lists)
}

/// What stands behind a line's first list: `in`, `is` or `+`.
#[derive(Clone, Copy, Debug)]
pub enum Joiner {
    In,
    Is,
    Plus,
}

/// What follows the first list of a line and its joiner, if the tokens begin with one.
fn split_joiner(tokens: &[Placed]) -> Option<(Joiner, &[Placed])>
    ensures joiner { MatchOption result (NoJoiner tokens.now) (λ x. (d : List Sentence) (l : Tuple) → run limits d (first_list l) tokens.now ≡ run limits d (list_wanted (joined_by x.0 l)) x.1.now) }
    ensures shorter { MatchOption result (length tokens.now ≤ length tokens.now) (λ x. length x.1.now < length tokens.now) }
{
    match tokens {
        [
            Placed {
                token: Token::Word(Word::In),
                ..
            },
            rest @ ..,
        ] => Some((Joiner::In, rest)),
        [
            Placed {
                token: Token::Word(Word::Is),
                ..
            },
            rest @ ..,
        ] => Some((Joiner::Is, rest)),
        [
            Placed {
                token: Token::Mark(Mark::Plus),
                ..
            },
            rest @ ..,
        ] => Some((Joiner::Plus, rest)),
        _ => None,
    }
}

/// A line behind its first list.
fn line_of_lists(
    alloc: Global,
    list: ExprList,
    tokens: &[Placed],
) -> Result<(Statement, &[Placed]), ReadError>
    ensures ends { (d : List Sentence) → Ends limits d (λ x. sentence x.0) (λ x. x.1.now) (run limits d (first_list (tuple list)) tokens.now) result }
    ensures shorter { IfOk result (λ x. length x.1.now < length tokens.now) }
{
    match split_joiner(tokens) {
        Some((Joiner::In, rest)) => lookup(alloc, list, rest),
        Some((Joiner::Is, rest)) => bus(alloc, one(alloc, list)?, rest),
        Some((Joiner::Plus, rest)) => sum_of_lists(alloc, one(alloc, list)?, rest),
        None => Err(unexpected(tokens)),
    }
}

/// A line behind its first `{`, which stands at this place and has this selector.
pub fn line_of_brace(
    alloc: Global,
    selector: Selector,
    at: u64,
    tokens: &[Placed],
) -> Result<(Statement, &[Placed]), ReadError>
    ensures ends { (d : List Sentence) → Ends limits d (λ x. sentence x.0) (λ x. x.1.now) (run limits d (entering opening (filter_of selector) at []) tokens.now) result }
    ensures shorter { IfOk result (λ x. length x.1.now < length tokens.now) }
{
    let (list, rest) = list_of_brace(alloc, selector, at, tokens)?;
    line_of_lists(alloc, list, rest)
}

/// The right side of an identity.
fn identity(
    alloc: Global,
    left: Expr,
    tokens: &[Placed],
) -> Result<(Statement, &[Placed]), ReadError>
    ensures ends { (d : List Sentence) → Ends limits d (λ x. sentence x.0) (λ x. x.1.now) (run limits d (want (plain (first (right (term left)))) 0) tokens.now) result }
    ensures shorter { IfOk result (λ x. length x.1.now < length tokens.now) }
{
    let (right, _, rest) = sum(alloc, tokens, 0, 0)?;
    let rest = semicolon(rest)?;
    Ok((Statement::Identity { left, right }, rest))
}

/// The selector that an expression is: a reference, or an expression in parentheses.
fn selector(value: Expr) -> Option<Selector>
    ensures { option_map filter_of result ≡ selector_of (term value) }
{
    match value {
        Expr::Column(column) => Some(Selector::Column(column)),
        Expr::Group(inner) => Some(Selector::Group(inner.into_inner())),
        _ => None,
    }
}

/// A line behind the expression that it begins with.
fn line_of(
    alloc: Global,
    left: Expr,
    tokens: &[Placed],
) -> Result<(Statement, &[Placed]), ReadError>
    requires { NoOperator tokens.now }
    ensures ends { (d : List Sentence) (n : ℕ) → Ends limits d (λ x. sentence x.0) (λ x. x.1.now) (run limits d (have (first leftmost) (term left) n) tokens.now) result }
    ensures shorter { IfOk result (λ x. length x.1.now < length tokens.now) }
{
    match tokens {
        [
            Placed {
                token: Token::Mark(Mark::Equals),
                ..
            },
            rest @ ..,
        ] => identity(alloc, left, rest),
        [
            Placed {
                token: Token::Mark(Mark::OpenBrace),
                at,
            },
            rest @ ..,
        ] => {
            match selector(left) {
                Some(selector) => line_of_brace(alloc, selector, *at, rest),
                None => Err(unexpected(tokens)),
            }
        }
        _ => Err(unexpected(tokens)),
    }
}

/// A line that begins with an expression.
pub fn line(alloc: Global, tokens: &[Placed]) -> Result<(Statement, &[Placed]), ReadError>
    ensures ends { (d : List Sentence) → Ends limits d (λ x. sentence x.0) (λ x. x.1.now) (run limits d (want (plain (first leftmost)) 0) tokens.now) result }
    ensures shorter { IfOk result (λ x. length x.1.now < length tokens.now) }
{
    let (left, _, rest) = sum(alloc, tokens, 0, 0)?;
    line_of(alloc, left, rest)
}
