//! What Arith's lines say.
ghost use Rattle.air_arith.specs.Laws.{ArithComplete, ArithExact, ArithFilled, ArithPadding, ArithSent, ArithSound};

/// What the lines of Arith say, in any text that has Arith at its number, where the small tables have
/// their constants: a selected row has the tuple of one of Arith's operations; no identity wraps; the
/// row of an operation meets the lines and has its tuple; and so does a row that isn't selected. Over
/// whole tables: where a text holds, each tuple that Arith has for Main is that of such an operation,
/// and tables filled with rows of operations meet each line. The call computes nothing.
pub fn arith_laws()
    ensures sound { ArithSound }
    ensures exact { ArithExact }
    ensures complete { ArithComplete }
    ensures padding { ArithPadding }
    ensures tuples { ArithSent }
    ensures filled { ArithFilled }
{}
