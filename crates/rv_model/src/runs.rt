//! A whole run.
ghost use Rattle.std.specs.Prelude.{◌≡◌, ◌+◌};
ghost use Rattle.rv_model.specs.Run.{end_within, Answers, EndsOnce};

use crate::{Image, PlainCpu, Ran, RunEnd, StepAnswer};
use std::alloc::Global;

/// The run of an image, up to `limit` steps: the halting run, or else why there is none.
///
/// `RunEnd::Fault` comes exactly where a step below the limit faults and all before it led on, and
/// `RunEnd::StepLimit(limit)` exactly where each step below the limit led on.
pub fn run(alloc: Global, image: &Image, limit: u32) -> Result<Ran, RunEnd>
    ensures answers { Answers limit (end_within image.now limit) result }
    ensures once { EndsOnce image.now limit }
{
    let mut cpu = PlainCpu::new(alloc, image);
    for step in 0..limit {
        let Ok(answer) = cpu.step() else {
            return Err(RunEnd::NoMemory);
        };
        match answer {
            StepAnswer::Next => {}
            StepAnswer::Halt => {
                return Ok(Ran {
                    steps: step + 1,
                    public: cpu.public(),
                });
            }
            StepAnswer::Fault(fault) => return Err(RunEnd::Fault(fault)),
        }
    }
    Err(RunEnd::StepLimit(limit))
}
