//! The table of a job.
ghost use Rattle.std.specs.Prelude.{◌≡◌, ℕ, IfOk};
ghost use Rattle.zk_layout.specs.declared.air.Air.TheVariants.{Align};
ghost use Rattle.run_rows.specs.Runs.{values_of, IsJobOf};
ghost use Rattle.row_columns.specs.Cells.{IsTableOf};

use crate::cells::{Accessed, CELLS};
use gold::Table;
use min_trace::Chunk;
use planner::Job;
use row_columns::table_of_job;
use rv_model::Image;
use std::alloc::{AllocError, Global};
use std::sync::Arc;

/// The instance of Align's sequential table that the job is.
///
/// # Errors
///
/// Memory ran out.
pub fn expand(
    alloc: Global,
    image: &Image,
    job: &Job,
    chunks: &[Arc<Chunk>],
) -> Result<Table, AllocError>
    requires air { job.now.air ≡ Align }
    requires job { (n : ℕ) × IsJobOf image.now n job.now (values_of chunks.now) }
    ensures { IfOk result (IsTableOf Align image.now job.now (values_of chunks.now)) }
{
    table_of_job::<Accessed, _>(alloc, image, job, chunks, &CELLS)
}
