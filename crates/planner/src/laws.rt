//! What the jobs of a plan have to do with the rows that they name.
ghost use Rattle.std.specs.Prelude.{◌≡◌, ◌*◌, ◌<◌, ◌≤◌, [], ◌∷◌, ◌++◌, ℕ, List, All, length, map, take, drop};
ghost use Rattle.std.specs.List.{flat_map};
ghost use Rattle.zk_layout.specs.Air.{rows_per};
ghost use Rattle.zk_layout.specs.declared.air.Air.{Air};
ghost use Rattle.planner.specs.declared.counts.Counts.{Counts};
ghost use Rattle.min_trace.specs.declared.record.StepRecord.{StepRecord};
ghost use Rattle.planner.specs.Rows.{with_row, counted, rows_in};
ghost use Rattle.planner.specs.Jobs.{jobs, job_of, whole, parts, all_chosen, of_air, added, handed, finished, all_jobs, IsPartIn, IsJobIn, IsWholeIn};

/// Over any counts of chunks, the jobs that adding them hands out are the air's whole jobs, each once, in order.
pub fn each_whole_job_once()
    ensures { (air : Air) (counts : List Counts) → of_air air (handed [] counts) ≡ jobs air counts 0 (whole air counts) }
{}

/// With those that finishing hands out they are all jobs of the air, each once, in order.
pub fn each_job_once()
    ensures { (air : Air) (counts : List Counts) → of_air air (handed [] counts ++ finished counts) ≡ all_jobs air counts }
{}

/// What was counted of some steps are their rows: by the counts as by `has_row`.
pub fn rows_are_counted()
    ensures { (air : Air) (rs : List StepRecord) → rows_in air (counted rs) ≡ length (with_row air rs) }
{}

/// Where each chunk has as many rows as was counted, the rows that a job's parts name are the air's rows from the job's
/// first one on, N of them or as many as there are.
pub fn rows_of_a_job<Row>()
    ensures { (rows : List (List Row)) (air : Air) (counts : List Counts) (i : ℕ) → map length rows ≡ map (rows_in air) counts → all_chosen rows (parts air counts i) ≡ take (rows_per air) (drop (i * rows_per air) (flat_map (λ xs. xs) rows)) }
{}

/// Each part of a job takes something of a chunk that was counted.
pub fn parts_of_a_job()
    ensures { (air : Air) (counts : List Counts) (i : ℕ) → All (IsPartIn counts) (parts air counts i) }
{}

/// As more chunks are counted no fewer jobs are whole, and a whole job stays as it is.
pub fn whole_jobs_stay()
    ensures count { (air : Air) (counts more : List Counts) → whole air counts ≤ whole air (counts ++ more) }
    ensures job { (air : Air) (counts more : List Counts) (i : ℕ) → i < whole air counts → job_of air (counts ++ more) i ≡ job_of air counts i }
{}

/// One more chunk hands out what it makes whole: jobs that are whole, whatever chunks come later. Finishing hands out jobs
/// of all chunks.
pub fn jobs_handed_out()
    ensures push { (counts : List Counts) (c : Counts) → handed [] (counts ++ c ∷ []) ≡ handed [] counts ++ added counts c }
    ensures added { (counts : List Counts) (c : Counts) (later : List Counts) → All (IsWholeIn ((counts ++ c ∷ []) ++ later)) (added counts c) }
    ensures finished { (counts : List Counts) → All (IsJobIn counts) (finished counts) }
{}
