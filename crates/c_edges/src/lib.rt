//! The edges of one step: the links of an act and of the steps of a call, and the edges of a comparison.
//!
//! `acts` gives the links of any act, those of assignments to data by `data`. `calls` gives those of the three steps of
//! a call: what is given and handed over by `giving`, the end of variables by `dying`. `comparison` reads two operands
//! into temporaries, and adds the loads, the two tests, and the end of the temporaries on each branch.
#![tactic(auto)]

pub mod acts;
pub mod calls;
pub mod comparison;
mod data;
mod dying;
mod giving;
mod operands;
pub mod steps;
