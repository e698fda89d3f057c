//! Reading a text.
ghost use Rattle.std.specs.Prelude.{◌≡◌, ℕ, List, IfOk, IfErr};
ghost use Rattle.pil_ast.specs.Term.{Namespace};
ghost use Rattle.pil_syntax.specs.Shown.{sentences};
ghost use Rattle.pil_ast.specs.Tree.{namespaces};
ghost use Rattle.pil_ast.specs.Sound.{IsSound};
ghost use Rattle.pil_text.specs.Refusal.{HasPlace, UnlessMemory, no_memory};
ghost use Rattle.pil_text.specs.Text.{Reads, Fails, IsShort, Spells, kind_of_lex, kind_of_syntax};

use crate::error::{PilErr, PilKind};
use crate::laws::one_answer;
use crate::resolve::resolve;
use pil_ast::Pil;
use pil_cycles::without_cycle_are_ranked;
use pil_meaning::{named_fits, named_is_closed, tokens_give, unbroken_is_sound};
use pil_names::read_outline;
use pil_syntax::{Syntax, SyntaxErr, SyntaxErrKind, read_syntax};
use pil_token::{LexErr, LexKind, tokens};
use std::alloc::Global;

/// The refusal of a text that has no tokens.
fn as_tokens(error: LexErr) -> PilErr
    ensures kind { result.kind ≡ kind_of_lex error.kind }
    ensures at { result.at ≡ error.at }
{
    let kind = match error.kind {
        LexKind::BadByte => PilKind::BadByte,
        LexKind::NumberTooLarge => PilKind::NumberTooLarge,
        LexKind::NoMemory => PilKind::NoMemory,
    };
    PilErr { kind, at: error.at }
}

/// The refusal of tokens that are no file.
fn as_file(error: SyntaxErr) -> PilErr
    ensures kind { result.kind ≡ kind_of_syntax error.kind }
    ensures at { result.at ≡ error.at }
{
    let kind = match error.kind {
        SyntaxErrKind::Unexpected => PilKind::Unexpected,
        SyntaxErrKind::TooDeep => PilKind::TooDeep,
        SyntaxErrKind::NoMemory => PilKind::NoMemory,
    };
    PilErr { kind, at: error.at }
}

/// The statements that a text spells.
fn statements(alloc: Global, text: &[u8]) -> Result<Syntax, PilErr>
    ensures found { IfOk result (λ syntax. Spells text.now (sentences syntax)) }
    ensures refused { IfErr result (λ e. UnlessMemory e.kind (Fails text.now e)) }
    ensures place { IfErr result HasPlace }
{
    let tokens = match tokens(alloc, text) {
        Ok(tokens) => tokens,
        Err(error) => return Err(as_tokens(error)),
    };
    match read_syntax(alloc, &tokens, text.len() as u64) {
        Ok(syntax) => Ok(syntax),
        Err(error) => Err(as_file(error)),
    }
}

/// The tree that a text means, or the first rule that it breaks, at its least place.
fn parse(alloc: Global, text: &[u8]) -> Result<Pil, PilErr>
    requires { IsShort text.now }
    ensures found { IfOk result (λ pil. Reads text.now (namespaces pil)) }
    ensures sound { IfOk result (λ pil. IsSound (namespaces pil)) }
    ensures refused { IfErr result (λ e. UnlessMemory e.kind (Fails text.now e)) }
    ensures place { IfErr result HasPlace }
{
    tokens_give();
    named_is_closed();
    named_fits();
    unbroken_is_sound();
    without_cycle_are_ranked();
    let syntax = statements(alloc, text)?;
    let outline = read_outline(alloc, &syntax)?;
    match resolve(alloc, &outline) {
        Ok(pil) => Ok(pil),
        Err(error) => Err(error),
    }
}

/// The tree that a text means.
///
/// # Errors
///
/// The first rule that the text breaks, in the order of [`PilKind`], with the least offset at which it
/// does, or `NoMemory` at 0.
pub fn read(alloc: Global, text: &[u8]) -> Result<Pil, PilErr>
    requires { IsShort text.now }
    // The tree is what the text means.
    ensures found { IfOk result (λ pil. Reads text.now (namespaces pil)) }
    ensures sound { IfOk result (λ pil. IsSound (namespaces pil)) }
    // The refusal is the text's.
    ensures refused { IfErr result (λ e. UnlessMemory e.kind (Fails text.now e)) }
    ensures place { IfErr result HasPlace }
    // A text that is known to read as something is read as that, unless memory runs out.
    ensures same { (ns : List Namespace) → Reads text.now ns → IfOk result (λ pil. namespaces pil ≡ ns) }
    ensures only { (ns : List Namespace) → Reads text.now ns → IfErr result (λ e. e ≡ no_memory) }
{
    one_answer();
    parse(alloc, text)
}
