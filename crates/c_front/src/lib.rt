//! The front end: the program of a file's bytes, or the first rule that the file breaks.
//!
//! `program_in` is the only call: it puts `tokens`, `parse` and `check` after one another, and tells the refusals of
//! the three in one form.
#![tactic(auto)]

mod broken;
mod reading;

pub use broken::{Broken, FileFault, Letter};
pub use reading::program_in;
