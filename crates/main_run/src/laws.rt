//! The laws, each on a function that computes nothing.
ghost use Rattle.main_run.specs.Bus.{RunBusLaw};
ghost use Rattle.main_run.specs.Chain.{ChainLaw, RestLaw};
ghost use Rattle.main_run.specs.Exact.{NoWrapLaw};
ghost use Rattle.main_run.specs.Headline.{HeadlineLaw};
ghost use Rattle.main_run.specs.Run.{BeginLaw, HaltLaw, StepsLaw};
ghost use Rattle.main_run.specs.Stands.{StandsLaw};
ghost use Rattle.main_run.specs.Whole.{MachineLaw, RowsLaw};

use air_align::align_laws;
use air_arith::arith_laws;
use air_main::{main_constants, main_laws};
use air_mem::{memory_bus, memory_constants, memory_lines, memory_text};
use air_ops::{binary_laws, shift_laws};
use image_rows::initial_law;
use rv_model::words_law;

/// The chain of Main's rows, across its instances.
pub fn chain_laws()
    // A selected row that doesn't halt is followed by a selected row at the pc to which it goes.
    ensures chain { ChainLaw }
    // After a row that halts, or isn't selected, no row is selected.
    ensures rest { RestLaw }
{
    main_laws();
}

/// The induction over rows.
pub fn run_laws()
    // Each read of the bus has the last value written, and the rows' accesses stand in it.
    ensures bus { RunBusLaw }
    // Row 0 is selected and has the start.
    ensures begin { BeginLaw }
    // A row that has a state reads that state, and is its step: the halt, or one that leaves the next row's state.
    ensures steps { StepsLaw }
    // Some row halts, the rows before it are the steps before, and no later row is selected.
    ensures halts { HaltLaw }
{
    main_laws();
    memory_lines();
    memory_bus();
    words_law();
    initial_law();
}

/// The run and its public.
pub fn headline_laws()
    // The run halts with the last selected row, and its public is that of the tables.
    ensures headline { HeadlineLaw }
{
    main_laws();
    words_law();
    initial_law();
}

/// The machine's text, in either profile, over columns with the machine's constants.
pub fn machine_laws()
    // Where all lines hold, the image's run halts, and its public is that of the tables.
    ensures machine { MachineLaw }
    // Row number j has state j and is step j.
    ensures rows { RowsLaw }
    // Then no identity of any namespace wraps.
    ensures exact { NoWrapLaw }
{
    main_constants();
    memory_constants();
    binary_laws();
    shift_laws();
    arith_laws();
    align_laws();
    main_laws();
    memory_lines();
    memory_bus();
    memory_text();
    words_law();
    initial_law();
}

/// Columns with the machine's constants are what the laws of each air suppose.
pub fn machine_stands()
    ensures { StandsLaw }
{
    main_laws();
    main_constants();
    memory_constants();
    memory_text();
}
