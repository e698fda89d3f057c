//! The values of which the machine's text speaks: the constants of an image, and the columns of its tables behind them.
#![tactic(auto)]

mod columns;
mod laws;
mod place;

pub use columns::{MachineColumns, table_sizes};
pub use laws::{columns_laws, publics_laws};
pub use place::constants_of;
