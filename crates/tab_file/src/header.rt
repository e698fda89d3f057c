//! The header of a file, which may not have come whole.
ghost use Rattle.std.specs.Prelude.{◌≡◌, ◌≢◌, length, IfOk, IfErr, MatchOption};
ghost use Rattle.tab_file.specs.declared.fault.TabKind.TheVariants.{NoMemory};
ghost use Rattle.tab_file.specs.Reading.{promised_profile, promised_airs, promised_counts};
ghost use Rattle.tab_file.specs.Steps.{Pass, Fail};
ghost use Rattle.tab_file.specs.Front.{profile_items, profile_end, header_items, header_end};
ghost use Rattle.tab_file.specs.Parts.{HeaderFails, ProfileFails};

use crate::fault::{TabErr, TabKind};
use crate::fields::expect;
use crate::numbers::MAGIC;
use crate::reading::{airs_in, counts, front, version};
use gold::{AirShape, Form, Profile, Shape};
use std::alloc::Global;

/// What a header tells.
#[derive(Drop)]
pub(crate) struct Header {
    /// The airs in the file's profile.
    pub(crate) airs: Vec<AirShape>,
    /// How many instances of each air there are.
    pub(crate) counts: Vec<u32>,
    /// The offset after the header.
    pub(crate) end: usize,
}

/// The profile that a file tells whose first bytes these are.
fn profile_in(bytes: &[u8], form: Form) -> Result<Profile, TabErr>
    ensures profile { IfOk result (λ p. p ≡ promised_profile bytes.now form) }
    ensures pass { IfOk result (λ _. Pass bytes.now 0 (profile_items form) (profile_end form)) }
    ensures fail { IfErr result (Fail bytes.now 0 (profile_items form)) }
    ensures item { IfErr result (λ e. e.kind ≢ NoMemory) }
{
    match form {
        Form::Plain | Form::One => Ok(Profile::Small),
        Form::Two => {
            expect(bytes, 0, MAGIC as u64, TabKind::BadMagic, 0)?;
            let (profile, _) = version(bytes, form)?;
            Ok(profile)
        }
    }
}

/// The header of a file whose first bytes these are.
pub(crate) fn header_in(alloc: Global, bytes: &[u8], shape: &Shape) -> Result<Header, TabErr>
    ensures airs { IfOk result (λ h. h.airs.items ≡ promised_airs bytes.now shape.now) }
    ensures counts { IfOk result (λ h. h.counts.items ≡ promised_counts bytes.now shape.now) }
    ensures end { IfOk result (λ h. h.end ≡ header_end bytes.now shape.now) }
    ensures pass { IfOk result (λ h. Pass bytes.now 0 (header_items bytes.now shape.now) h.end) }
    ensures fail { IfErr result (HeaderFails bytes.now shape.now) }
{
    let (profile, start) = front(bytes, shape.form, shape.airs.len() as u64)?;
    let airs = airs_in(alloc, shape, profile)?;
    let (counts, end) = counts(alloc, bytes, start, shape.form.is_machine(), &airs)?;
    Ok(Header { airs, counts, end })
}

/// The profile that a file tells whose first bytes these are: None where it hasn't come, or an item before it fails.
pub(crate) fn profile_so_far(bytes: &[u8], form: Form) -> Option<Profile>
    ensures { MatchOption result (ProfileFails bytes.now form) (λ p. (p ≡ promised_profile bytes.now form) × Pass bytes.now 0 (profile_items form) (profile_end form)) }
{
    match profile_in(bytes, form) {
        Ok(profile) => Some(profile),
        Err(_) => None,
    }
}
