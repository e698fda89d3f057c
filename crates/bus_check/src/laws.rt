//! What holds of all texts and tables.
ghost use Rattle.std.specs.Prelude.{◌≡◌, ◌<◌, ◌⊎◌, List, length, All};
ghost use Rattle.pil_ast.specs.Term.{Namespace, Tuples};
ghost use Rattle.pil_ast.specs.Columns.{Columns as Values};
ghost use Rattle.pil_ast.specs.Holds.{AllHold, AsOften, all_sent};
ghost use Rattle.row_check.specs.declared.broken.Broken.{Broken};
ghost use Rattle.row_check.specs.Breaks.{IsFirstBroken};
ghost use Rattle.bus_check.specs.Run.{Added, AreAllOnce, all_sent_from};

/// Whatever the tables hold, each line of a text holds, or one line is the first broken one, at one
/// place or by one tuple, and not both.
pub fn one_verdict()
    ensures some { (ns : List Namespace) (c : Values) → AllHold ns c ⊎ ((b : Broken) × IsFirstBroken ns c b) }
    ensures one { (ns : List Namespace) (c : Values) (a b : Broken) → IsFirstBroken ns c a → IsFirstBroken ns c b → a ≡ b }
    ensures not_both { (ns : List Namespace) (c : Values) (b : Broken) → AllHold ns c → IsFirstBroken ns c b → ⊥ }
{}

/// Where each instance of each namespace was added once, in whatever order, a sum of lists sends each
/// tuple as often from them as from the whole columns. So what a run finds is what an `is` says.
pub fn in_any_order()
    ensures { (ns : List Namespace) (c : Values) (xs : List Added) (ls : List Tuples) → AreAllOnce ns c xs → All (λ a. a.space < length ns) ls → AsOften (all_sent_from ns xs ls) (all_sent ns c ls) }
{}
