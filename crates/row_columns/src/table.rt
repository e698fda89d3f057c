//! The table of a job.
ghost use Rattle.std.specs.Prelude.{◌≡◌, ℕ, length, IfOk};
ghost use Rattle.zk_layout.specs.Air.{columns_per};
ghost use Rattle.run_rows.specs.Runs.{values_of, IsJobOf};
ghost use Rattle.row_columns.specs.Cells.{AreRowOf, IsTableOf};

use crate::columns::{Cell, columns_of};
use gold::Table;
use min_trace::Chunk;
use planner::Job;
use run_rows::{FromStep, gather, steps_of_a_job};
use rv_model::Image;
use std::alloc::{AllocError, Global};
use std::sync::Arc;

/// The sequential table's instance that the job is, where the cells of what is taken of a step are the step's row.
///
/// # Errors
///
/// Memory ran out.
pub fn table_of_job<T: FromStep + Drop, C: Cell<T>>(
    alloc: Global,
    image: &Image,
    job: &Job,
    chunks: &[Arc<Chunk>],
    cells: &[C],
) -> Result<Table, AllocError>
    requires job { (n : ℕ) × IsJobOf image.now n job.now (values_of chunks.now) }
    requires width { length cells.now ≡ columns_per job.now.air }
    requires row { AreRowOf C.value T.taken cells.now job.now.air image.now }
    ensures { IfOk result (IsTableOf job.now.air image.now job.now (values_of chunks.now)) }
{
    steps_of_a_job();
    let items = gather::<T>(alloc, image, job, chunks)?;
    Ok(Table {
        air: job.air.number(),
        instance: job.instance,
        columns: columns_of(alloc, &items, cells, job.air.rows() as usize)?,
    })
}
