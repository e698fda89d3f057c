//! Which items are on a cycle, from their users and the order in which a search is done with them.
//! Backwards in that order, an item that isn't judged yet is on a cycle with all those among the rest
//! that depend on it; where there are none it is on no cycle.
ghost use Rattle.std.specs.Prelude.{◌≡◌, ◌<◌, ◌↔◌, ◌+◌, Some, List, ℕ, [], length, slice_get, slice_index_or, All, IfOk, OnOk, IsTrue};
ghost use Rattle.pil_cycles.specs.Users.{Uses};
ghost use Rattle.pil_cycles.specs.Finish.{IsFinished};
ghost use Rattle.pil_cycles.specs.Verdicts.{IsUnknown, IsMarked, IsJudged, AreVerdicts};

use sqlite_items::Items;
use std::alloc::{AllocError, Global};

/// What is known of an item.
#[derive(Clone, Copy)]
pub enum Verdict {
    Unknown,
    /// It is on no cycle.
    Free,
    /// It is on a cycle.
    Cyclic,
}

fn is_unknown(verdicts: &[Verdict], item: u32) -> bool
    ensures { IsTrue result ↔ IsUnknown verdicts.now item }
{
    matches!(verdicts.get(item as usize), Some(Verdict::Unknown))
}

/// Marks those of the list that aren't judged yet as Cyclic, and puts them on the stack.
fn mark_all(list: &[u32], verdicts: &mut [Verdict], todo: &mut Items<u32>) -> Result<(), AllocError>
    requires { All (λ k. k < length verdicts.old) list.now }
    ensures { OnOk result (IsMarked list.now verdicts.old verdicts.new todo.old todo.new) }
{
    for item in list {
        if is_unknown(verdicts, *item) {
            verdicts[*item as usize] = Verdict::Cyclic;
            todo.push(*item)?;
        }
    }
    Ok(())
}

/// Judges the root, which stands at `at` in the order, and all that depend on it and aren't judged yet.
fn judge_root(
    alloc: Global,
    users: &[Items<u32>],
    order: &[u32],
    at: usize,
    root: u32,
    verdicts: &mut [Verdict],
) -> Result<(), AllocError>
    requires users { (a b : ℕ) → Uses users.now a b → a < length users.now }
    requires order { IsFinished (Uses users.now) (length users.now) order.now }
    requires root { slice_get order.now at ≡ Some root }
    requires judged { IsJudged (Uses users.now) (length users.now) order.now (at + 1) verdicts.old }
    ensures { OnOk result (IsJudged (Uses users.now) (length users.now) order.now at verdicts.new) }
{
    if !is_unknown(verdicts, root) {
        return Ok(());
    }
    let mut todo = Items::new(alloc);
    todo.push(root)?;
    while let Some(item) = todo.pop() {
        mark_all(users[item as usize].as_slice(), verdicts, &mut todo)?;
    }
    if is_unknown(verdicts, root) {
        verdicts[root as usize] = Verdict::Free;
    }
    Ok(())
}

/// What is known of each item in the end.
pub fn judge(alloc: Global, users: &[Items<u32>], order: &[u32]) -> Result<Vec<Verdict>, AllocError>
    requires users { (a b : ℕ) → Uses users.now a b → a < length users.now }
    requires order { IsFinished (Uses users.now) (length users.now) order.now }
    ensures { IfOk result (λ verdicts. AreVerdicts (Uses users.now) (length users.now) verdicts.items) }
{
    let mut verdicts = vec![in alloc; Verdict::Unknown; users.len()]?;
    for back in 0..order.len() {
        let at = order.len() - 1 - back;
        judge_root(alloc, users, order, at, order[at], &mut verdicts)?;
    }
    Ok(verdicts)
}
