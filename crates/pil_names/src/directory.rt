//! The maps of all names of a file.
ghost use Rattle.std.specs.Prelude.{◌≡◌, ◌<◌, ◌^◌, ℕ, length, map, flat_map, IfOk};
ghost use Rattle.pil_names.specs.Outline.{home_at};
ghost use Rattle.pil_names.specs.Finding.{polynomial_entries};
ghost use Rattle.pil_names.specs.Least.{least};
ghost use Rattle.pil_names.specs.Wrongs.{repeated, repeated_among};
ghost use Rattle.pil_names.specs.Directory.{IsCountable, IsDirectory, ListsEach};
ghost use Rattle.pil_names.specs.Shown.{outlined, home};

use crate::least::lesser;
use crate::names::Names;
use crate::outline::{Home, Outline};
use crate::register::{register_constants, register_homes, register_polynomials, register_publics};
use std::alloc::{AllocError, Global};

/// The declarations by name: constants, namespaces, publics, and the polynomials of each namespace.
#[derive(Drop)]
pub struct Directory {
    pub constants: Names,
    pub homes: Names,
    pub publics: Names,
    pub polynomials: Vec<Names>,
}

/// The polynomials of each namespace, and the least place of a name that stands among the earlier
/// ones of its namespace.
fn polynomials_of(alloc: Global, homes: &[Home]) -> Result<(Vec<Names>, Option<u64>), AllocError>
    requires { (s : ℕ) → length (home_at (map home homes.now) s).items < 2 ^ 32 }
    ensures { IfOk result (λ x. ListsEach x.0.items (map home homes.now) × (x.1 ≡ least (flat_map (λ h. repeated_among (polynomial_entries h)) (map home homes.now)))) }
{
    let mut names = Vec::new(alloc);
    let mut repeated = None;
    for home in homes {
        let polynomials = register_polynomials(alloc, home.items.as_slice())?;
        repeated = lesser(repeated, polynomials.repeated);
        names.push(polynomials.names)?;
    }
    Ok((names, repeated))
}

/// The maps of all names of a file, and the least place of a name that stands among the earlier ones
/// of its kind.
pub fn read_directory(
    alloc: Global,
    outline: &Outline,
) -> Result<(Directory, Option<u64>), AllocError>
    requires { IsCountable (outlined outline.now) }
    ensures { IfOk result (λ x. IsDirectory (outlined outline.now) x.0 × (x.1 ≡ least (repeated (outlined outline.now)))) }
{
    let constants = register_constants(alloc, outline)?;
    let homes = register_homes(alloc, outline)?;
    let publics = register_publics(alloc, outline)?;
    let (polynomials, repeated) = polynomials_of(alloc, outline.homes.as_slice())?;
    let repeated = lesser(publics.repeated, repeated);
    let repeated = lesser(homes.repeated, repeated);
    let repeated = lesser(constants.repeated, repeated);
    let directory = Directory {
        constants: constants.names,
        homes: homes.names,
        publics: publics.names,
        polynomials,
    };
    Ok((directory, repeated))
}
