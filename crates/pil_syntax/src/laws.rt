//! What is true of all tokens and of every syntax.
ghost use Rattle.std.specs.Prelude.{◌≡◌, ℕ, List, [], Ok};
ghost use Rattle.pil_token.specs.declared.token.Placed.{Placed};
ghost use Rattle.pil_syntax.specs.Grammar.{limits};
ghost use Rattle.pil_syntax.specs.Machine.{run};
ghost use Rattle.pil_syntax.specs.Refusal.{IsDecided, Reads};
ghost use Rattle.pil_syntax.specs.State.{between};
ghost use Rattle.pil_syntax.specs.Tree.{Sentence};
ghost use Rattle.pil_syntax.specs.Placeless.{IsPlaceless};
ghost use Rattle.pil_syntax.specs.Printing.{IsDressing};

/// The law of printed parentheses: an expression with the parentheses that are needed, and no
/// others, is in the grammar, is the same expression, and is within the limits where the text that
/// it was read from is. The call computes nothing.
pub fn printed_parentheses()
    ensures dressing { IsDressing }
{}

/// The law of places: tokens that differ from those of a file in their places alone are read as a
/// file that differs from it in places alone. The call computes nothing.
pub fn moved_tokens()
    ensures placeless { IsPlaceless }
{}

/// The law of one answer: whatever the tokens are, they are a file in one way or refused in one way.
/// The call computes nothing.
pub fn files_are_decided()
    ensures decided { (ts : List Placed) (end : ℕ) → IsDecided limits ts end }
{}

/// The law of computing: what the machine makes of tokens is a file that they spell. The call computes
/// nothing.
pub fn runs_are_files()
    ensures file { (ts : List Placed) (ss : List Sentence) → run limits [] between ts ≡ Ok ss → Reads limits ts ss }
{}
