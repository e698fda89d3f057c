//! A whole run, chunk by chunk.
ghost use Rattle.rv_model.specs.Run.{end_within, Answers};

use min_trace::STEPS_PER_CHUNK;
use rv_emu::{Emu, Step};
use rv_model::{Image, Ran, RunEnd};
use std::alloc::Global;
use std::sync::Arc;

/// The run of an image, up to `limit` steps: the halting run, or else why there is none. Each chunk is let go at once.
pub fn emulate(alloc: Global, image: Image, limit: u32) -> Result<Ran, RunEnd>
    ensures { Answers limit (end_within image limit) result }
{
    let Ok(image) = Arc::new(alloc, image) else {
        return Err(RunEnd::NoMemory);
    };
    let Ok(mut emu) = Emu::new(alloc, image, limit) else {
        return Err(RunEnd::NoMemory);
    };
    loop {
        match emu.next_chunk() {
            Ok(Step::Chunk(_)) => {}
            Ok(Step::Last(chunk, public)) => {
                return Ok(Ran {
                    steps: STEPS_PER_CHUNK * chunk.number + chunk.steps,
                    public,
                });
            }
            Err(end) => return Err(end),
        }
    }
}
