//! The first intermediate that depends on itself.
ghost use Rattle.std.specs.Prelude.{◌≡◌, length, map, All, Some, None, if◌then◌else◌, IfOk};
ghost use Rattle.pil_ast.specs.Tree.{namespaces};
ghost use Rattle.pil_names.specs.Shown.{draft, outlined};
ghost use Rattle.pil_meaning.specs.Meaning.{meaning};
ghost use Rattle.pil_meaning.specs.Closed.{IsClosed};
ghost use Rattle.pil_text.specs.Refusal.{place_of, IsCyclic};
ghost use Rattle.pil_text.specs.Cyclic.{IsLeastOf, IsFlagged, IsCyclicBelow};

use pil_ast::Pil;
use pil_cycles::on_cycles;
use pil_meaning::meaning_is_reading;
use pil_names::{Draft, Outline, lesser};
use std::alloc::{AllocError, Global};

/// The place of the item's name in its declaration.
fn name_place(item: &Draft) -> u64
    ensures { result ≡ place_of (draft item.now) }
{
    match item {
        Draft::Column { declaration, .. } => declaration.name.at,
        Draft::Intermediate { name, .. } => name.at,
        Draft::Public { name, .. } => name.at,
        Draft::Identity { .. } | Draft::Lookup { .. } | Draft::Bus { .. } => 0,
    }
}

/// The place of the item's name, if its flag is set.
fn place_if(flag: bool, item: &Draft) -> Option<u64>
    ensures { result ≡ (if flag then Some (place_of (draft item.now)) else None) }
{
    if flag { Some(name_place(item)) } else { None }
}

/// The least place of the items whose flags are set.
fn least_flagged(items: &[Draft], flags: &[bool]) -> Option<u64>
    requires { length flags.now ≡ length items.now }
    ensures { IsLeastOf (IsFlagged (map draft items.now) flags.now (length items.now)) result }
{
    let mut found = None;
    for item in 0..items.len() {
        found = lesser(found, place_if(flags[item], &items[item]));
    }
    found
}

/// The least place of the name of an intermediate that depends on itself.
pub fn least_cyclic(alloc: Global, outline: &Outline, pil: &Pil) -> Result<Option<u64>, AllocError>
    requires meant { namespaces pil.now ≡ meaning (outlined outline.now) }
    requires closed { All (λ n. IsClosed n.items) (meaning (outlined outline.now)) }
    ensures { IfOk result (λ found. IsLeastOf (IsCyclic (outlined outline.now)) found) }
{
    meaning_is_reading();
    let homes = outline.homes.as_slice();
    let spaces = pil.spaces.as_slice();
    let mut found = None;
    for space in 0..homes.len() {
        let flags = on_cycles(alloc, spaces[space].items.as_slice())?;
        found = lesser(found, least_flagged(homes[space].items.as_slice(), &flags));
    }
    Ok(found)
}
