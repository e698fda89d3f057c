//! Names: the outline of a file, which declaration each name stands for, and the first places at which names,
//! sizes and widths are wrong.
#![tactic(auto)]

mod counting;
mod directory;
mod least;
mod lookup;
mod mixed;
mod names;
mod outline;
mod register;
mod rows;
mod unknown;
mod widths;

pub use directory::{Directory, read_directory};
pub use least::{least_is_least, lesser};
pub use mixed::{home_of_identity, home_of_list, least_mixed};
pub use names::Names;
pub use outline::{Constant, Draft, Home, Outline, read_outline};
pub use rows::{least_bad_row, rows_of_home};
pub use unknown::least_unknown;
pub use widths::least_wrong_width;

#[cfg(test)]
mod rule_tests;
#[cfg(test)]
mod tests;
