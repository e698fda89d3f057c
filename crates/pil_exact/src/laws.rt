//! The kit's law, and those of its worked example.
ghost use Rattle.pil_exact.specs.Laws.{ValueLaw};
ghost use Rattle.pil_exact.specs.Example.{TallyLaw, TallyExact, TallyComplete, TallyPadding};

/// The value of an expression is, modulo p, that of the same expression over the whole numbers.
pub fn value_law()
    ensures { ValueLaw }
{}

/// What the lines of the worked example say: a selected row adds, no identity wraps, and rows that add,
/// or aren't selected, meet the lines.
pub fn example_laws()
    ensures sound { TallyLaw }
    ensures exact { TallyExact }
    ensures complete { TallyComplete }
    ensures padding { TallyPadding }
{}
