//! What the items of a unit define, to be found by names.
//!
//! `functions` goes through the heads of the functions, and keeps of each name the first. `tables` has what the items
//! define and what they call in one value, which contracts see as the `Globals` of `c_typing`.
#![tactic(auto)]

pub mod crossing;
pub mod functions;
pub mod tables;
