//! How many rows of each air every chunk has, and which of them each instance takes. An instance is a job: whoever does
//! it needs the chunks that its parts name, and nothing else of the run.
#![tactic(auto)]

mod counting;
mod counts;
mod cutting;
mod job;
mod laws;
mod plan;
mod track;

pub use counting::{count, has_row};
pub use counts::Counts;
pub use job::{Job, Part};
pub use laws::{
    each_job_once, each_whole_job_once, jobs_handed_out, parts_of_a_job, rows_are_counted,
    rows_of_a_job, whole_jobs_stay,
};
pub use plan::Plan;

#[cfg(test)]
mod tests;
