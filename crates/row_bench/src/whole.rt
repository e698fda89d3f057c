//! A whole run.
ghost use Rattle.std.specs.Prelude.{◌≡◌};
ghost use Rattle.planner.specs.Jobs.{IsJobIn};
ghost use Rattle.run_rows.specs.Runs.{counts_to};
ghost use Rattle.row_bench.specs.Progress.{IsWhole};

use gold::Table;
use min_trace::Chunk;
use planner::Job;
use run_rows::jobs_of_a_run;
use run_tables::{expand, named, tables_of_jobs};
use rv_model::Image;
use std::alloc::{AllocError, Global};
use std::sync::Arc;
use zk_layout::Air;

/// The chunks of a run that halted, and all its jobs.
#[derive(Drop)]
pub struct Whole {
    pub alloc: Global,
    pub chunks: Vec<Arc<Chunk>>,
    pub jobs: Vec<Job>,
    /// The run's number of steps, the halting one with them.
    pub steps: u32,
}

impl Whole {
    fn table_of(&self, image: &Image, job: &Job) -> Result<Table, AllocError>
        requires run { IsWhole image.now self.now }
        requires job { IsJobIn (counts_to image.now self.now.steps) job.now }
    {
        jobs_of_a_run();
        let chunks = named(self.alloc, job, &self.chunks)?;
        let table = expand(self.alloc, image, job, &chunks)?;
        Ok(table)
    }

    /// The tables of Main's jobs, in order.
    pub fn main_tables(&self, image: &Image) -> Result<Vec<Table>, AllocError>
        requires { IsWhole image.now self.now }
    {
        tables_of_jobs();
        let mut tables = Vec::new(self.alloc);
        for job in &self.jobs {
            if job.air == Air::Main {
                tables.push(self.table_of(image, job)?)?;
            }
        }
        Ok(tables)
    }
}
