//! Tables that are added to a run of the verdict as they become whole.
ghost use Rattle.std.specs.Prelude.{◌≡◌, ◌++◌, List, ℕ, IfOk, IfSome, OnOk, length};
ghost use Rattle.gold.specs.declared.instances.Table.{Table as AnyTable};
ghost use Rattle.fixed_cols.specs.declared.sizes.Sizes.{Sizes as AnySizes};
ghost use Rattle.tab_file.specs.Front.{CountsHaveCome};
ghost use Rattle.tab_file.specs.Stands.{AreBytes, StandsFor};
ghost use Rattle.verdict.specs.Standing.{StandsForTables};
ghost use Rattle.file_verdict.specs.Standing.{AreNext, FillPlaces, HasBegun, IsReaderOfBytes, IsRunOf, sizes_in, the_shape};

use fixed_cols::Sizes;
use gold::{Profile, Table};
use rv_model::Image;
use std::alloc::{AllocError, Global};
use tab_file::TabReader;
use tab_file::laws::front_laws;
use verdict::{VerdictRun, file_laws};

/// The number of airs.
const AIRS: usize = 7;

/// A profile and how many tables there are of each air.
fn sizes_of(profile: Profile, counts: &[u32]) -> Sizes
    requires { length counts.now ≡ 7 }
    ensures { result ≡ record { profile = profile; counts = counts.now } }
{
    let mut all = [0; AIRS];
    all.copy_from_slice(counts);
    Sizes {
        profile,
        counts: all,
    }
}

/// The run, which begins once the file has told how many tables there are of each air.
///
/// # Errors
///
/// Memory ran out.
pub(crate) fn begun(
    alloc: Global,
    image: &Image,
    reader: &TabReader,
    run: Option<VerdictRun>,
) -> Result<Option<VerdictRun>, AllocError>
    requires { IsReaderOfBytes reader.now }
    ensures { IfOk result (λ new. (bytes : List ℕ) (before : List AnyTable) → AreBytes bytes → StandsFor reader.now the_shape bytes → IsRunOf image.now bytes before run → HasBegun image.now bytes before new) }
{
    front_laws();
    if let Some(run) = run {
        return Ok(Some(run));
    }
    let Some(profile) = reader.profile() else {
        return Ok(None);
    };
    let Some(counts) = reader.counts() else {
        return Ok(None);
    };
    let sizes = sizes_of(profile, counts);
    let run = VerdictRun::new(alloc, image, &sizes)?;
    Ok(Some(run))
}

/// Adds tables to a run in their order.
///
/// # Errors
///
/// Memory ran out. Then the run is of no more use.
fn add_all(
    alloc: Global,
    image: &Image,
    run: &mut VerdictRun,
    tables: &[Table],
) -> Result<(), AllocError>
    requires { AreNext image.now run.old tables.now }
    ensures { OnOk result ((sizes : AnySizes) (before : List AnyTable) → StandsForTables image.now sizes before run.old → FillPlaces sizes (before ++ tables.now) → StandsForTables image.now sizes (before ++ tables.now) run.new) }
{
    file_laws();
    for table in tables {
        run.add(alloc, image, table)?;
    }
    Ok(())
}

/// The run with these tables after those that it had, where it has begun.
///
/// # Errors
///
/// Memory ran out.
pub(crate) fn with_tables(
    alloc: Global,
    image: &Image,
    run: Option<VerdictRun>,
    tables: &[Table],
) -> Result<Option<VerdictRun>, AllocError>
    requires { IfSome run (λ r. AreNext image.now r tables.now) }
    ensures { IfOk result (λ new. (bytes : List ℕ) (before : List AnyTable) → HasBegun image.now bytes before run → (CountsHaveCome bytes the_shape → FillPlaces (sizes_in bytes) (before ++ tables.now)) → HasBegun image.now bytes (before ++ tables.now) new) }
{
    match run {
        Some(mut run) => {
            add_all(alloc, image, &mut run, tables)?;
            Ok(Some(run))
        }
        None => Ok(None),
    }
}
