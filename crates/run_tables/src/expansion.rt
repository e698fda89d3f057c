//! The table of a job.
ghost use Rattle.std.specs.Prelude.{ℕ, IfOk};
ghost use Rattle.run_rows.specs.Runs.{values_of, IsJobOf};
ghost use Rattle.row_columns.specs.Cells.{IsTableOf};

use gold::Table;
use min_trace::Chunk;
use planner::Job;
use rv_model::Image;
use std::alloc::{AllocError, Global};
use std::sync::Arc;
use zk_layout::Air;

/// The instance of its air's sequential table that a job of a run is, whatever more steps the run has. The chunks are those that
/// its parts name.
///
/// # Errors
///
/// Memory ran out.
pub fn expand(
    alloc: Global,
    image: &Image,
    job: &Job,
    chunks: &[Arc<Chunk>],
) -> Result<Table, AllocError>
    requires { (n : ℕ) × IsJobOf image.now n job.now (values_of chunks.now) }
    ensures { IfOk result (IsTableOf job.now.air image.now job.now (values_of chunks.now)) }
{
    match job.air {
        Air::Main => main_rows::expand(alloc, image, job, chunks),
        Air::Arith => arith_rows::expand(alloc, image, job, chunks),
        Air::Align => align_rows::expand(alloc, image, job, chunks),
        _ => binary_rows::expand(alloc, image, job, chunks),
    }
}
