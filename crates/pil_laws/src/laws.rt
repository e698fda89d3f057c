//! The main lemmas, as laws.
ghost use Rattle.pil_laws.specs.Laws.{SendsLaw, SumLaw, InLaw, IsLaw, WeightLaw, OrderLaw, JointLaw, TableLaw, TextLaw, RowsLaw, LinesLaw, PublicLaw};

/// What lists of tuples send and how often (docs/PIL.md, "Lines"): a tuple that is sent has a row
/// behind it; an `in` and an `is` find for each row one on the other side; lists that hold each tuple
/// equally often have the same weights, and order is of no matter.
pub fn sent_laws()
    ensures sends { SendsLaw }
    ensures sum { SumLaw }
    ensures lookup { InLaw }
    ensures bus { IsLaw }
    ensures weight { WeightLaw }
    ensures order { OrderLaw }
{}

/// An `is` that carries values from each instance to the next holds exactly where the values agree.
pub fn joint_law()
    ensures { JointLaw }
{}

/// A namespace whose columns hold the rows of a table sends what its rows give.
pub fn table_law()
    ensures { TableLaw }
{}

/// The lines of a text, the items of its namespaces and the rows of their instances, each from the
/// other; and the range of a public's value.
pub fn text_laws()
    ensures text { TextLaw }
    ensures rows { RowsLaw }
    ensures lines { LinesLaw }
    ensures public { PublicLaw }
{}
