//! What is true of every text.
ghost use Rattle.std.specs.Prelude.{◌≡◌, ℕ, List, Some};
ghost use Rattle.pil_ast.specs.Term.{Namespace};
ghost use Rattle.pil_ast.specs.Sound.{IsSound};
ghost use Rattle.pil_print.specs.Printed.{printed};
ghost use Rattle.pil_text.specs.Computed.{computed};
ghost use Rattle.pil_text.specs.Text.{Reads, IsShort, IsDecided};

use pil_cycles::{cycles_are_decided, ranked_have_no_cycle, without_cycle_are_ranked};
use pil_meaning::{named_is_closed, tokens_give, unbroken_is_sound};
use pil_names::least_is_least;
use pil_print::printed_text;
use pil_syntax::{files_are_decided, runs_are_files};
use pil_token::lexed_tokens;

/// The law of one answer: each text, of whatever length, reads in one way or fails in one way, and not
/// both. The call computes nothing.
pub fn one_answer()
    ensures decided { (text : List ℕ) → IsDecided text }
{
    files_are_decided();
    least_is_least();
    cycles_are_decided();
}

/// The law of printing: what is printed of what a short text reads as is short, and reads as the same. So
/// it has one printed text. The call computes nothing.
pub fn printed_reads_back()
    ensures same { (text : List ℕ) (ns : List Namespace) → IsShort text → Reads text ns → Reads (printed ns) ns }
    ensures short { (text : List ℕ) (ns : List Namespace) → IsShort text → Reads text ns → IsShort (printed ns) }
{
    tokens_give();
    named_is_closed();
    without_cycle_are_ranked();
    ranked_have_no_cycle();
    lexed_tokens();
    printed_text();
}

/// The law of soundness: what a short text reads as is sound. The call computes nothing.
pub fn readings_are_sound()
    ensures sound { (text : List ℕ) (ns : List Namespace) → IsShort text → Reads text ns → IsSound ns }
{
    tokens_give();
    named_is_closed();
    without_cycle_are_ranked();
    lexed_tokens();
    unbroken_is_sound();
}

/// The law of computing: a text reads as what is computed of it. Where a text and its namespaces are
/// both written out, `refl` proves the premise. The call computes nothing.
pub fn computed_reads()
    ensures reads { (text : List ℕ) (ns : List Namespace) → computed text ≡ Some ns → Reads text ns }
{
    runs_are_files();
    ranked_have_no_cycle();
}
