//! A whole run.
ghost use Rattle.std.specs.Prelude.{◌≡◌, ◌++◌, IfOk, OnOk};
ghost use Rattle.mem_rows.specs.Rows.{mem_tables};
ghost use Rattle.planner.specs.Jobs.{IsJobIn};
ghost use Rattle.run_rows.specs.Runs.{counts_to};
ghost use Rattle.run_tables.specs.Sequential.{step_tables, sequential_tables, table_for};
ghost use Rattle.sequential.specs.Progress.{IsWhole};

use gold::{Table, Tables};
use mem_rows::out_table;
use min_trace::Chunk;
use planner::Job;
use run_rows::jobs_of_a_run;
use run_tables::{expand, named, tables_of_jobs};
use rv_model::{Image, Public};
use std::alloc::{AllocError, Global};
use std::sync::Arc;
use zk_layout::Air;

/// The chunks of a run that halted, and all its jobs.
#[derive(Drop)]
pub struct Whole {
    pub alloc: Global,
    pub chunks: Vec<Arc<Chunk>>,
    pub jobs: Vec<Job>,
    /// The run's number of steps, the halting one with them.
    pub steps: u32,
}

fn push_all(tables: &mut Tables, more: Vec<Table>) -> Result<(), AllocError>
    ensures { OnOk result (tables.new ≡ tables.old ++ more.items) }
{
    for table in more {
        tables.push(table)?;
    }
    Ok(())
}

impl Whole {
    fn table_of(&self, image: &Image, job: &Job) -> Result<Table, AllocError>
        requires run { IsWhole image.now self.now }
        requires job { IsJobIn (counts_to image.now self.now.steps) job.now }
        ensures { IfOk result (λ t. t ≡ table_for image.now self.now.steps job.now) }
    {
        jobs_of_a_run();
        let chunks = named(self.alloc, job, &self.chunks)?;
        let table = expand(self.alloc, image, job, &chunks)?;
        Ok(table)
    }

    // The tables of the air's jobs, in order.
    fn push_tables(&self, image: &Image, air: Air, tables: &mut Tables) -> Result<(), AllocError>
        requires { IsWhole image.now self.now }
        ensures { OnOk result (tables.new ≡ tables.old ++ step_tables air image.now self.now.steps) }
    {
        tables_of_jobs();
        for job in &self.jobs {
            if air.number() == job.air.number() {
                tables.push(self.table_of(image, job)?)?;
            }
        }
        Ok(())
    }

    /// All tables, where these are Mem's and this is what the run publishes.
    #[tactic(auto, unfolding(run_tables::specs::Sequential::sequential_tables))]
    pub fn tables(
        &self,
        image: &Image,
        public: &Public,
        mem: Vec<Table>,
    ) -> Result<Tables, AllocError>
        requires run { IsWhole image.now self.now }
        requires mem { mem.items ≡ mem_tables image.now self.now.steps public.now }
        ensures { IfOk result (λ tables. tables ≡ sequential_tables image.now self.now.steps public.now) }
    {
        let mut tables = Tables::new(self.alloc);
        self.push_tables(image, Air::Main, &mut tables)?;
        push_all(&mut tables, mem)?;
        self.push_tables(image, Air::Binary, &mut tables)?;
        self.push_tables(image, Air::Shift, &mut tables)?;
        self.push_tables(image, Air::Arith, &mut tables)?;
        self.push_tables(image, Air::Align, &mut tables)?;
        tables.push(out_table(self.alloc, public)?)?;
        Ok(tables)
    }
}
