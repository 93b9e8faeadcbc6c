//! Boxes, for programs of rows: files of boxes, read over the structs of rows, and what an edge of a box is unfolded
//! into.
#![tactic(auto)]

mod files;
mod unfolding;

pub use files::{DLL, RING, SEG, TO, table_from, table_over};
pub use unfolding::unfolded_letters;
