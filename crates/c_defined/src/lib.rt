//! The structs, enumerations and enumerators that the items of a unit define, to be found by names.
//!
//! `defined` goes through the items, and keeps of each name the first definition; `structs` has a struct whose fields
//! are found by their names. `definitions` has all of it in one value.
#![tactic(auto)]

pub mod crossing;
mod defined;
pub mod definitions;
mod structs;
