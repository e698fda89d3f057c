//! The numbers of a file, each with its test.
ghost use Rattle.std.specs.Prelude.{◌≡◌, ◌≤◌, ◌<◌, ◌+◌, ◌∷◌, [], ◌⊎◌, length, IfOk, IfErr};
ghost use Rattle.std.specs.Int.{w32, w64};
ghost use Rattle.gold.specs.Field.{p};
ghost use Rattle.tab_file.specs.declared.fault.TabKind.TheVariants.{Short, BadProfile};
ghost use Rattle.tab_file.specs.Items.{failure, number_at, exactly, profile_item, air_item, count_item, value_item};
ghost use Rattle.tab_file.specs.Reading.{profile_of};
ghost use Rattle.tab_file.specs.Steps.{Pass, Fail};

use crate::fault::{TabErr, TabKind};
use crate::numbers::{SMALL, WIDE};
use gold::{AirShape, Fe, Profile};
use zk_layout::Air;

/// A number of 32 bits at an offset.
fn u32_at(bytes: &[u8], at: usize) -> Result<u32, TabErr>
    requires { at ≤ length bytes.now }
    ensures value { IfOk result (λ v. v ≡ number_at w32 bytes.now at) }
    ensures whole { IfOk result (λ v. at + 4 ≤ length bytes.now) }
    ensures short { IfErr result (λ e. (length bytes.now < at + 4) × (e ≡ failure Short (length bytes.now))) }
{
    let rest = &bytes[at..];
    if rest.len() < 4 {
        return Err(short(bytes));
    }
    Ok(u32::from_le_bytes([rest[0], rest[1], rest[2], rest[3]]))
}

/// A number of 64 bits at an offset.
fn u64_at(bytes: &[u8], at: usize) -> Result<u64, TabErr>
    requires { at ≤ length bytes.now }
    ensures value { IfOk result (λ v. v ≡ number_at w64 bytes.now at) }
    ensures whole { IfOk result (λ v. at + 8 ≤ length bytes.now) }
    ensures short { IfErr result (λ e. (length bytes.now < at + 8) × (e ≡ failure Short (length bytes.now))) }
{
    let rest = &bytes[at..];
    if rest.len() < 8 {
        return Err(short(bytes));
    }
    Ok(u64::from_le_bytes([
        rest[0], rest[1], rest[2], rest[3], rest[4], rest[5], rest[6], rest[7],
    ]))
}

/// An item isn't whole.
fn short(bytes: &[u8]) -> TabErr
    ensures { result ≡ failure Short (length bytes.now) }
{
    fault(TabKind::Short, bytes.len())
}

pub(crate) fn fault(kind: TabKind, at: usize) -> TabErr
    ensures { result ≡ failure kind at }
{
    TabErr {
        kind,
        at: at as u64,
    }
}

/// A number that is to be `wanted`. What is wrong is told of the place that is `back` bytes before.
pub(crate) fn expect(
    bytes: &[u8],
    at: usize,
    wanted: u64,
    kind: TabKind,
    back: usize,
) -> Result<u32, TabErr>
    requires start { at ≤ length bytes.now }
    requires back { back ≤ at }
    ensures value { IfOk result (λ v. (v ≡ number_at w32 bytes.now at) × (v ≡ wanted)) }
    ensures pass { IfOk result (λ v. Pass bytes.now at (exactly wanted kind back ∷ []) (at + 4)) }
    ensures fail { IfErr result (Fail bytes.now at (exactly wanted kind back ∷ [])) }
    ensures kind { IfErr result (λ e. (e.kind ≡ Short) ⊎ (e.kind ≡ kind)) }
{
    let number = u32_at(bytes, at)?;
    if number as u64 != wanted {
        return Err(fault(kind, at - back));
    }
    Ok(number)
}

/// The air of an instance, which is to be the one that is wanted, of so many airs.
pub(crate) fn air_at(bytes: &[u8], at: usize, airs: u64, wanted: u64) -> Result<u32, TabErr>
    requires { at ≤ length bytes.now }
    ensures value { IfOk result (λ v. (v ≡ number_at w32 bytes.now at) × (v ≡ wanted)) }
    ensures pass { IfOk result (λ v. Pass bytes.now at (air_item airs wanted ∷ []) (at + 4)) }
    ensures fail { IfErr result (Fail bytes.now at (air_item airs wanted ∷ [])) }
{
    let air = u32_at(bytes, at)?;
    if air as u64 >= airs {
        return Err(fault(TabKind::BadAir, at));
    }
    if air as u64 != wanted {
        return Err(fault(TabKind::BadOrder, at));
    }
    Ok(air)
}

/// A profile.
pub(crate) fn profile_at(bytes: &[u8], at: usize) -> Result<Profile, TabErr>
    requires { at ≤ length bytes.now }
    ensures value { IfOk result (λ v. v ≡ profile_of (number_at w32 bytes.now at)) }
    ensures pass { IfOk result (λ v. Pass bytes.now at (profile_item ∷ []) (at + 4)) }
    ensures fail { IfErr result (Fail bytes.now at (profile_item ∷ [])) }
    ensures kind { IfErr result (λ e. (e.kind ≡ Short) ⊎ (e.kind ≡ BadProfile)) }
{
    match u32_at(bytes, at)? {
        SMALL => Ok(Profile::Small),
        WIDE => Ok(Profile::Wide),
        _ => Err(fault(TabKind::BadProfile, at)),
    }
}

/// How many instances of an air there are.
#[tactic(auto, unfolding(zk_layout::specs::Air::air_number))]
pub(crate) fn count_at(
    bytes: &[u8],
    at: usize,
    machine: bool,
    air: usize,
    form: &AirShape,
) -> Result<u32, TabErr>
    requires { at ≤ length bytes.now }
    ensures value { IfOk result (λ v. v ≡ number_at w32 bytes.now at) }
    ensures pass { IfOk result (λ v. Pass bytes.now at (count_item machine air form.now ∷ []) (at + 4)) }
    ensures fail { IfErr result (Fail bytes.now at (count_item machine air form.now ∷ [])) }
{
    let count = u32_at(bytes, at)?;
    if machine && air == Air::Out.number() as usize {
        if count != 1 {
            return Err(fault(TabKind::NotOneOut, at));
        }
    } else if machine && air == Air::Main.number() as usize && count == 0 {
        return Err(fault(TabKind::NoMain, at));
    } else if count > form.most {
        return Err(fault(TabKind::TooMany, at));
    }
    Ok(count)
}

/// A value, which is to be below p.
#[inline]
pub(crate) fn value_at(bytes: &[u8], at: usize) -> Result<Fe, TabErr>
    requires { at ≤ length bytes.now }
    ensures value { IfOk result (λ v. v ≡ number_at w64 bytes.now at) }
    ensures pass { IfOk result (λ v. Pass bytes.now at (value_item ∷ []) (at + 8)) }
    ensures fail { IfErr result (Fail bytes.now at (value_item ∷ [])) }
{
    match Fe::from_u64(u64_at(bytes, at)?) {
        Some(value) => Ok(value),
        None => Err(fault(TabKind::NotCanonical, at)),
    }
}
