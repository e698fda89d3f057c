//! What Align's lines say.
ghost use Rattle.air_align.specs.Laws.{AlignComplete, AlignExact, AlignFilled, AlignPadding, AlignSent, AlignSound};

/// What the lines of Align say, in any text that has Align at its number, where the small tables have
/// their constants: a selected row has the tuple of an access; no identity wraps; the row of an access
/// meets the lines and has its tuple; and so does a row that isn't selected. Over whole tables: where a
/// text holds, each tuple that Align has for Main is that of an access, and tables filled with rows of
/// accesses meet each line. The call computes nothing.
pub fn align_laws()
    ensures sound { AlignSound }
    ensures exact { AlignExact }
    ensures complete { AlignComplete }
    ensures padding { AlignPadding }
    ensures tuples { AlignSent }
    ensures filled { AlignFilled }
{}
