//! Simulations on the states of tree automata.
//!
//! - `downward::downward` gives the greatest downward simulation of an automaton, `upward::upward` and
//! `upward::upward_alone` the greatest upward one by a relation.
//! - `Relation` is a relation on states, as a table, which `Relation::holds` reads and `tabling::rows_of` makes.
//! - `laws` says what simulations are good for; `crossing` that relations are shared between threads.
#![tactic(auto)]

pub mod crossing;
pub mod downward;
mod filling;
mod grouping;
pub mod laws;
mod matching;
mod refining;
pub mod relation;
pub mod tabling;
pub mod upward;

pub use relation::Relation;
