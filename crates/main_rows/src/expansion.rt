//! The table of a job.
ghost use Rattle.std.specs.Prelude.{◌≡◌, ◌<◌, ◌^◌, ℕ, IfOk, IsSome};
ghost use Rattle.rv_model.specs.Image.{fetch};
ghost use Rattle.zk_layout.specs.declared.air.Air.TheVariants.{Main};
ghost use Rattle.run_rows.specs.Runs.{values_of, IsJobOf};
ghost use Rattle.row_columns.specs.Cells.{IsTableOf};

use crate::cells::{CELLS, Done};
use gold::Table;
use min_trace::{Chunk, instruction_law};
use planner::Job;
use row_columns::table_of_job;
use rv_model::Image;
use std::alloc::{AllocError, Global};
use std::sync::Arc;

// A program lies below 2^32.
fn program_below(image: &Image)
    ensures { (pc : ℕ) → IsSome (fetch image.now pc) → pc < 2 ^ 32 }
{
    let _ = &image.segments;
}

/// The instance of Main's sequential table that the job is.
///
/// # Errors
///
/// Memory ran out.
pub fn expand(
    alloc: Global,
    image: &Image,
    job: &Job,
    chunks: &[Arc<Chunk>],
) -> Result<Table, AllocError>
    requires air { job.now.air ≡ Main }
    requires job { (n : ℕ) × IsJobOf image.now n job.now (values_of chunks.now) }
    ensures { IfOk result (IsTableOf Main image.now job.now (values_of chunks.now)) }
{
    instruction_law();
    program_below(image);
    table_of_job::<Done, _>(alloc, image, job, chunks, &CELLS)
}
