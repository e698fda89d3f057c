//! The table of a job.
ghost use Rattle.std.specs.Prelude.{◌≡◌, ◌⊎◌, ℕ, IfOk};
ghost use Rattle.zk_layout.specs.declared.air.Air.TheVariants.{Binary, Shift};
ghost use Rattle.run_rows.specs.Runs.{values_of, IsJobOf};
ghost use Rattle.row_columns.specs.Cells.{IsTableOf};

use crate::{binary, shift};
use gold::Table;
use min_trace::{Chunk, record_law};
use planner::Job;
use row_columns::table_of_job;
use rv_model::Image;
use std::alloc::{AllocError, Global};
use std::sync::Arc;
use zk_layout::Air;

fn expand_binary(
    alloc: Global,
    image: &Image,
    job: &Job,
    chunks: &[Arc<Chunk>],
) -> Result<Table, AllocError>
    requires air { job.now.air ≡ Binary }
    requires job { (n : ℕ) × IsJobOf image.now n job.now (values_of chunks.now) }
    ensures { IfOk result (IsTableOf job.now.air image.now job.now (values_of chunks.now)) }
{
    table_of_job::<binary::Computed, _>(alloc, image, job, chunks, &binary::CELLS)
}

fn expand_shift(
    alloc: Global,
    image: &Image,
    job: &Job,
    chunks: &[Arc<Chunk>],
) -> Result<Table, AllocError>
    requires air { job.now.air ≡ Shift }
    requires job { (n : ℕ) × IsJobOf image.now n job.now (values_of chunks.now) }
    ensures { IfOk result (IsTableOf job.now.air image.now job.now (values_of chunks.now)) }
{
    record_law();
    table_of_job::<shift::Moved, _>(alloc, image, job, chunks, &shift::CELLS)
}

/// The instance of Binary's or Shift's sequential table that the job is.
///
/// # Errors
///
/// Memory ran out.
pub fn expand(
    alloc: Global,
    image: &Image,
    job: &Job,
    chunks: &[Arc<Chunk>],
) -> Result<Table, AllocError>
    requires air { (job.now.air ≡ Binary) ⊎ (job.now.air ≡ Shift) }
    requires job { (n : ℕ) × IsJobOf image.now n job.now (values_of chunks.now) }
    ensures { IfOk result (IsTableOf job.now.air image.now job.now (values_of chunks.now)) }
{
    match job.air {
        Air::Shift => expand_shift(alloc, image, job, chunks),
        _ => expand_binary(alloc, image, job, chunks),
    }
}
