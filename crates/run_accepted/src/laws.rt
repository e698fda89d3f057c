//! The laws, on a function that computes nothing.
ghost use Rattle.run_accepted.specs.Laws.{Completeness, PublishesTheRun};

use air_main::main_rows;
use image_rows::rom_law;
use machine_columns::{columns_laws, publics_laws};
use main_run::{machine_laws, machine_stands};
use mem_rows::accesses_law;
use min_trace::{bounds_law, execution_law, instruction_law};
use run_lines::run_holds;

/// What the sequential tables of a run are, that halts within fewer than 2^32 steps.
pub fn completeness()
    // They are well-formed, and the machine's constraints hold of them.
    ensures accepted { Completeness }
    // They publish what the run does.
    ensures public { PublishesTheRun }
{
    run_holds();
    columns_laws();
    publics_laws();
    machine_laws();
    machine_stands();
    main_rows();
    rom_law();
    accesses_law();
    instruction_law();
    execution_law();
    bounds_law();
}
