//! What the lines of Binary and Shift say, and which rows meet them.
ghost use Rattle.air_ops.specs.Binary;
ghost use Rattle.air_ops.specs.Shift;

/// What the lines of Binary say, over any text that has the namespace at its number and any columns of
/// values below p with the small tables' constants: a selected row has the tuple of one of Binary's
/// operations on numbers of 64 bits; no identity wraps; an operation's row meets the lines and has the
/// operation's tuple, and a row that isn't selected meets them; and the same of whole tables. The call
/// computes nothing.
pub fn binary_laws()
    ensures sound { Binary.IsSound }
    ensures exact { Binary.IsExact }
    ensures complete { Binary.IsComplete }
    ensures padding { Binary.AllowsPadding }
    ensures tuples { Binary.SendsOperations }
    ensures filled { Binary.HoldsFilled }
{}

/// The same of Shift, over any columns that have ShiftTab's constants too. A row says of its second operand's
/// high limb only that it is in the column `bhi`, which no line reads, so what is said of a row's tuple
/// supposes that `bhi` is below 2^32; where Main sends it, it is.
pub fn shift_laws()
    ensures sound { Shift.IsSound }
    ensures exact { Shift.IsExact }
    ensures complete { Shift.IsComplete }
    ensures padding { Shift.AllowsPadding }
    ensures tuples { Shift.SendsOperations }
    ensures filled { Shift.HoldsFilled }
{}
