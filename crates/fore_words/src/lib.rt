//! The words of the command line, read with `clap`.
//!
//! `read_words` says what the words ask: to verify a file, to run it, or for a generated program (`asked`). `command`
//! has the command line as `clap` reads it, and `values` reads the texts that it finds. `usage` is what is printed
//! where the words ask nothing.
#![tactic(auto)]

pub mod asked;
mod command;
pub mod crossing;
pub mod laws;
pub mod path;
mod reading;
mod usage;
mod values;

pub use asked::{Asked, Kind, Settings, WordsFault};
pub use path::FilePath;
pub use reading::read_words;
pub use usage::usage_text;
