//! The laws of Main, each on a function that computes nothing.
ghost use Rattle.air_main.specs.Constants.{MainConstantsLaw, RomConstantsLaw};
ghost use Rattle.air_main.specs.Law.{EndsLaw, FollowsLaw, MainExact, ProfilesLaw, RowLaw};
ghost use Rattle.air_main.specs.Rows.{MainComplete, MainPadding, MainSends};
ghost use Rattle.air_main.specs.Selected.{SelectedLaw};
ghost use Rattle.air_main.specs.Table.{MainFilled, RunHasRows, RunSends};

use min_trace::bounds_law;
use rv_word::decoding_law;

/// What Main's lines say of one row, and which rows meet them.
pub fn main_laws()
    // A selected row is a step of the machine.
    ensures row { RowLaw }
    // What the look-ups alone tell of it.
    ensures selected { SelectedLaw }
    ensures profiles { ProfilesLaw }

    // Which row comes next, and the first and the last row.
    ensures follows { FollowsLaw }
    ensures ends { EndsLaw }

    // No identity wraps.
    ensures exact { MainExact }

    // The row of a step meets the lines, and so does one that isn't selected.
    ensures complete { MainComplete }
    ensures padding { MainPadding }
    ensures sends { MainSends }
{
    decoding_law();
}

/// What the laws suppose of the constants is so of the machine's.
pub fn main_constants()
    ensures rom { RomConstantsLaw }
    ensures main { MainConstantsLaw }
{}

/// The rows of a whole run that halts.
pub fn main_rows()
    // Each step has a row.
    ensures steps { RunHasRows }

    // The rows meet the lines, line 7 too, which joins the instances; the other buses go to other namespaces.
    ensures filled { MainFilled }

    // What each step's row sends to other namespaces.
    ensures sends { RunSends }
{
    decoding_law();
    bounds_law();
}
