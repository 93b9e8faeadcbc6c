//! Boxes learnt from forests: what stands between two roots, as a box, and tables with such a box more.
#![tactic(auto)]

pub mod laws;
mod table;

pub use table::{copy_table, extend_table};
