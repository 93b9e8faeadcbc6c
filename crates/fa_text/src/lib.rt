//! Files of boxes over the structs of a program.
//!
//! `read_boxes` gives the table of boxes that a text writes, or the first rule that it breaks, with its line.
#![tactic(auto)]

pub mod crossing;
pub mod fault;
pub mod laws;
mod reader;
mod tables;

pub use fault::BoxFault;
pub use reader::read_boxes;
