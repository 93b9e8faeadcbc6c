//! Generated programs, which show how verification grows with a program.
//!
//! `generate` makes the text of a C program that builds and takes apart lists, doubly linked lists or trees, in so many
//! phases one after another; `count_lines` says how long a text is. `dll_boxes` is the file of boxes with which doubly
//! linked lists are verified.
#![tactic(auto)]

mod parts;
mod programs;

pub use parts::dll_boxes;
pub use programs::{count_lines, generate};
