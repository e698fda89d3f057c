//! The run, chunk by chunk.
ghost use Rattle.std.specs.Prelude.{◌≡◌, ◌+◌, ◌<◌, ◌^◌, IfOk};
ghost use Rattle.std.specs.Arc.{arc_value};
ghost use Rattle.rv_model.specs.Run.{RunsTo};
ghost use Rattle.min_trace.specs.Chunk.{IsChunk, first_step};
ghost use Rattle.row_bench.specs.Progress.{IsAt};

use crate::progress::{Made, Progress};
use min_trace::{Chunk, STEPS_PER_CHUNK};
use rv_emu::{Emu, Step};
use rv_model::{Image, Public, RunEnd};
use std::alloc::{AllocError, Global};
use std::sync::Arc;

// The emulator and the progress before the first chunk.
fn begin(alloc: Global, image: &Arc<Image>, limit: u32) -> Result<(Emu, Progress), AllocError>
    ensures emulator { IfOk result (λ r. r.0 ≡ record { image = arc_value image.now; limit = limit; number = 0 }) }
    ensures progress { IfOk result (λ r. IsAt (arc_value image.now) 0 r.1) }
{
    let emu = Emu::new(alloc, Arc::try_clone(image)?, limit)?;
    Ok((emu, Progress::new(alloc, image)?))
}

// What is made of the run, with its last chunk.
fn end(progress: Progress, image: &Image, chunk: Chunk, public: Public) -> Result<Made, AllocError>
    requires chunk { IsChunk image.now chunk }
    requires next { IsAt image.now (first_step chunk.number) progress }
    requires halts { RunsTo image.now (first_step chunk.number + chunk.steps) public }
    requires few { first_step chunk.number + chunk.steps < 2 ^ 32 }
{
    let mut progress = progress;
    let steps = STEPS_PER_CHUNK * chunk.number + chunk.steps;
    progress.add(image, chunk)?;
    progress.finish(image, steps, &public)
}

/// The tables of Main and of Mem of an image's run within `limit` steps, or how it ends without.
pub fn rows_of_run(alloc: Global, image: Arc<Image>, limit: u32) -> Result<Made, RunEnd>
    requires { 0 < limit }
{
    let Ok((mut emu, mut progress)) = begin(alloc, &image, limit) else {
        return Err(RunEnd::NoMemory);
    };
    loop {
        match emu.next_chunk() {
            Ok(Step::Chunk(chunk)) => {
                let Ok(()) = progress.add(&image, chunk) else {
                    return Err(RunEnd::NoMemory);
                };
            }
            Ok(Step::Last(chunk, public)) => {
                drop(emu);
                let Ok(made) = end(progress, &image, chunk, public) else {
                    return Err(RunEnd::NoMemory);
                };
                return Ok(made);
            }
            Err(end) => return Err(end),
        }
    }
}
