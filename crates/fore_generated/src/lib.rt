//! A program that `fore_gen` makes, with the table of boxes by which it is verified, and how it is verified.
//!
//! `generated_program` takes the text through the front end, and the boxes of its kind through theirs. `gen_settings`
//! are the height, the budget and the jobs with which every generated program is explored.
#![tactic(auto)]

pub mod generated;
