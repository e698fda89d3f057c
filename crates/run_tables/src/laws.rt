//! What the jobs of a run have to do with its tables.
ghost use Rattle.std.specs.Prelude.{◌≡◌, ◌≤◌, ◌++◌, [], ℕ, List, All, map, Result, Ok};
ghost use Rattle.rv_model.specs.Image.{Img};
ghost use Rattle.rv_model.specs.Run.{RunsTo};
ghost use Rattle.rv_model.specs.declared.answer.RunEnd.{RunEnd};
ghost use Rattle.zk_layout.specs.declared.air.Air.{Air};
ghost use Rattle.planner.specs.declared.counts.Counts.{Counts};
ghost use Rattle.planner.specs.Jobs.{all_jobs, of_air, handed, finished, IsJobIn};
ghost use Rattle.run_rows.specs.Runs.{counts_to};
ghost use Rattle.run_tables.specs.declared.made.Made.{Made as AnyMade};
ghost use Rattle.run_tables.specs.Sequential.{step_tables, table_for, Makes, IsOnlyMaking};

use planner::each_job_once;
use run_rows::rows_of_a_run;
use rv_model::run_law;

/// The tables of an air are those of all its jobs, in order. What adding the counts of all chunks and then finishing hands
/// out are jobs of the run, and of each air all of them, in order.
pub fn tables_of_jobs()
    ensures all { (air : Air) (image : Img) (n : ℕ) → step_tables air image n ≡ map (table_for image n) (all_jobs air (counts_to image n)) }
    ensures handed { (air : Air) (image : Img) (n : ℕ) → step_tables air image n ≡ map (table_for image n) (of_air air (handed [] (counts_to image n) ++ finished (counts_to image n))) }
    ensures jobs { (counts : List Counts) → All (IsJobIn counts) (handed [] counts ++ finished counts) }
{
    rows_of_a_run();
    each_job_once();
}

/// What is made of a run is made of one that halts within the limit, and two answers within one limit are the same, but for
/// want of memory.
pub fn one_making()
    ensures halts { (image : Img) (limit : ℕ) (made : AnyMade) → Makes image limit (Ok made) → (made.steps ≤ limit) × RunsTo image made.steps made.public }
    ensures once { (image : Img) (limit : ℕ) (a b : Result AnyMade RunEnd) → IsOnlyMaking image limit a b }
{
    run_law();
}
