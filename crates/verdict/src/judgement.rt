//! A verdict.
use row_check::Broken;
use rv_model::Public;

/// What is judged of tables.
#[derive(Debug, Drop)]
pub enum Judgement {
    /// Each line holds, and this is the public output that the tables have.
    Accepted(Public),
    /// The first line that doesn't hold, and where.
    Broken(Broken),
}
