//! Texts of a file with their numbers: the number of a text, whether it is there, and one text more.
#![tactic(auto)]

pub mod naming;
