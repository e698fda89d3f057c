//! The laws, each on a function that computes nothing.
ghost use Rattle.run_lines.specs.Laws.{RunHolds};

use air_align::align_laws;
use air_arith::arith_laws;
use air_main::main_rows;
use air_mem::{memory_bus, memory_rows};
use air_ops::{binary_laws, shift_laws};
use main_run::machine_stands;
use mem_rows::accesses_law;
use min_trace::{bounds_law, instruction_law, record_law, state_law};

/// Each line of the machine's text holds where columns have the rows of a run.
pub fn run_holds()
    ensures { RunHolds }
{
    machine_stands();
    main_rows();
    binary_laws();
    shift_laws();
    arith_laws();
    align_laws();
    memory_rows();
    memory_bus();
    accesses_law();
    record_law();
    instruction_law();
    state_law();
    bounds_law();
}
