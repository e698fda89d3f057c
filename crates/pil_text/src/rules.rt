//! The rules of names, sizes and widths, in their order.
ghost use Rattle.std.specs.Prelude.{◌≡◌, IfErr};
ghost use Rattle.pil_names.specs.Least.{least};
ghost use Rattle.pil_names.specs.Wrongs.{repeated as repeated_places};
ghost use Rattle.pil_names.specs.Directory.{IsCountable, IsDirectory};
ghost use Rattle.pil_names.specs.Shown.{outlined};
ghost use Rattle.pil_text.specs.Refusal.{BreaksOrClears, HasPlace};

use crate::error::{PilErr, PilKind};
use pil_names::{
    Directory, Outline, least_bad_row, least_is_least, least_mixed, least_unknown,
    least_wrong_width,
};

/// Refuses an outline by the first rule of names, sizes and widths that it breaks, at its least place.
pub fn check_names(
    outline: &Outline,
    directory: &Directory,
    repeated: Option<u64>,
) -> Result<(), PilErr>
    requires listed { IsDirectory (outlined outline.now) directory.now }
    requires countable { IsCountable (outlined outline.now) }
    requires repeated { repeated ≡ least (repeated_places (outlined outline.now)) }
    ensures told { BreaksOrClears (outlined outline.now) 7 result }
    ensures place { IfErr result HasPlace }
{
    least_is_least();
    if let Some(at) = repeated {
        return Err(refusal(PilKind::Repeated, at));
    }
    if let Some(at) = least_unknown(outline, directory) {
        return Err(refusal(PilKind::UnknownName, at));
    }
    if let Some(at) = least_bad_row(outline, directory) {
        return Err(refusal(PilKind::BadRow, at));
    }
    if let Some(at) = least_mixed(outline, directory) {
        return Err(refusal(PilKind::Mixed, at));
    }
    if let Some(at) = least_wrong_width(outline) {
        return Err(refusal(PilKind::WrongWidth, at));
    }
    Ok(())
}

/// The refusal of a rule at a place.
pub fn refusal(kind: PilKind, at: u64) -> PilErr
    ensures kind { result.kind ≡ kind }
    ensures at { result.at ≡ at }
{
    PilErr { kind, at }
}
