//! The chunks of a job.
ghost use Rattle.std.specs.Prelude.{◌≡◌, ◌<◌, ℕ, List, All, length, map, IfOk};
ghost use Rattle.std.specs.List.{range_with_len};
ghost use Rattle.rv_model.specs.Image.{Img};
ghost use Rattle.min_trace.specs.Chunk.{Piece};
ghost use Rattle.planner.specs.declared.job.Part.{Part as AnyPart};
ghost use Rattle.run_rows.specs.Runs.{Later, values_of, named_by};
ghost use Rattle.run_tables.specs.Sequential.{IsPlanned};

use min_trace::Chunk;
use planner::{Job, Part, parts_of_a_job};
use run_rows::chunks_of_a_run;
use std::alloc::{AllocError, Global};
use std::sync::Arc;

// The chunks that parts name.
fn chunks_at(
    alloc: Global,
    chunks: &[Arc<Chunk>],
    parts: &[Part],
) -> Result<Vec<Arc<Chunk>>, AllocError>
    requires { All (λ (p : AnyPart). p.chunk < length chunks.now) parts.now }
    ensures { IfOk result (λ v. (f : ℕ → Piece) → values_of chunks.now ≡ map f (range_with_len 0 (length chunks.now)) → values_of v.items ≡ map (λ (p : AnyPart). f p.chunk) parts.now) }
{
    let mut found = Vec::new(alloc);
    for part in parts {
        let chunk = Arc::try_clone(&chunks[part.chunk as usize])?;
        found.push(chunk)?;
    }
    Ok(found)
}

/// The chunks that a job's parts name, of all chunks of a run's first steps: those of the run, whatever more steps it has.
///
/// # Errors
///
/// Memory ran out.
pub fn named(alloc: Global, job: &Job, chunks: &[Arc<Chunk>]) -> Result<Vec<Arc<Chunk>>, AllocError>
    requires { (image : Img) × (n : ℕ) × IsPlanned image n (values_of chunks.now) job.now }
    ensures { IfOk result (λ v. (image : Img) (n m : ℕ) → IsPlanned image n (values_of chunks.now) job.now → Later n m → values_of v.items ≡ named_by image m job.now) }
{
    parts_of_a_job();
    chunks_of_a_run();
    let found = chunks_at(alloc, chunks, job.parts.as_slice())?;
    Ok(found)
}
