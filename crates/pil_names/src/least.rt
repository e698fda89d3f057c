//! The least of the places at which a rule is broken.
ghost use Rattle.std.specs.Prelude.{◌≡◌};
ghost use Rattle.pil_names.specs.Least.{lesser, least, IsLeast};
ghost use Rattle.pil_names.specs.Wrongs.{unless};

/// The lesser of two places, each of which may be missing.
pub fn lesser(a: Option<u64>, b: Option<u64>) -> Option<u64>
    ensures { result ≡ lesser a b }
{
    match a {
        None => b,
        Some(m) => match b {
            None => a,
            Some(n) => Some(m.min(n)),
        },
    }
}

/// The place, unless the rule is kept.
pub(crate) fn unless(kept: bool, at: u64) -> Option<u64>
    ensures { result ≡ least (unless kept at) }
{
    if kept { None } else { Some(at) }
}

/// The law of the least place: it is one of the places and at most each other, and is missing only where
/// there is no place. The call computes nothing.
pub fn least_is_least()
    ensures least { IsLeast }
{}
