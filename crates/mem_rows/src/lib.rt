//! The tables of Mem and Out. The accesses of a run are kept in a list for each key while its chunks come, and walked key by
//! key at its end: nothing is sorted.
#![tactic(auto)]

mod access;
mod accesses;
mod columns;
mod initial;
mod instances;
mod laws;
mod out;
mod steps;
#[cfg(test)]
mod tests;

pub use access::Access;
pub use accesses::Accesses;
pub use laws::accesses_law;
pub use out::out_table;
