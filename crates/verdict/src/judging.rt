//! The verdict.
ghost use Rattle.std.specs.Prelude.{IfOk};
ghost use Rattle.machine_columns.specs.Accepted.{AreWellFormed};
ghost use Rattle.verdict.specs.Judged.{IsJudged};
ghost use Rattle.verdict.specs.Steps.{IsSound};

use crate::laws::soundness_laws;
use crate::{Judgement, VerdictRun};
use gold::Witness;
use machine_columns::table_sizes;
use rv_model::Image;
use std::alloc::{AllocError, Global};

/// The verdict on tables for an image: they are accepted, with the public output that they have; or the first line of the
/// machine's text that they break, and where. Where they are accepted, the image's run has this public output.
///
/// # Errors
///
/// Memory ran out.
pub fn verdict(alloc: Global, image: &Image, witness: &Witness) -> Result<Judgement, AllocError>
    requires { AreWellFormed witness.now }
    ensures judged { IfOk result (IsJudged image.now witness.now) }
    ensures sound { IfOk result (IsSound image.now witness.now) }
{
    soundness_laws();
    let _ = &image.entry;
    let sizes = table_sizes(alloc, witness)?;
    let mut run = VerdictRun::new(alloc, image, &sizes)?;
    for table in witness.tables.as_slice() {
        run.add(alloc, image, table)?;
    }
    run.finish(alloc)
}
