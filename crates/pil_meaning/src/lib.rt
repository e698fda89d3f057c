//! The meaning of a text: the tree of its outline, with numbers in place of names.
#![tactic(auto)]

mod double;
mod expressions;
mod firsts;
mod items;
mod laws;
mod marks;
mod reading;

pub use double::least_double_mark;
pub use laws::{meaning_is_reading, named_fits, named_is_closed, tokens_give, unbroken_is_sound};
pub use reading::read_meaning;

#[cfg(test)]
mod tests;
