//! The loader: which image an ELF file and an input are, or why the file is refused.
#![tactic(auto)]

mod error;
mod fields;
mod file_header;
mod header;
mod laws;
mod layout;
mod loading;
mod overlap;
mod program_headers;
#[cfg(test)]
mod tests;

pub use error::ElfErr;
pub use laws::{exact_size, input_apart, loaded_is_loadable, one_answer};
pub use loading::load;
