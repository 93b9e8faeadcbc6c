//! The texts of forests, boxes and stores, in which names stand in place of numbers.
//!
//! `print_forest`, `print_box` and `print_store` make each its whole text. A box is printed as it is written in a file
//! of boxes.
#![tactic(auto)]

mod boxes;
mod cells;
mod components;
mod forests;
pub mod laws;
mod names;
mod order;
mod slots;
mod stores;
mod variables;

pub use boxes::print_box;
pub use forests::print_forest;
pub use names::box_name;
pub use stores::print_store;
