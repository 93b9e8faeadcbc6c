//! A search through a table of numbers: which numbers are reached from some of them.
//!
//! A number stands for what the crates above say: a root of a forest, a function of a file.
#![tactic(auto)]

mod searching;

pub use crate::searching::search;
