//! Canonical forests, joined: two forests that have the same languages, but for one child of one root, become one
//! forest with the members of both.
//!
//! - `join_all` joins the forests of a list until no two of them can be joined, and keeps what they stand for.
//! - `joinable` says whether two can be; `laws` that this goes both ways, and that two such forests have one.
//! - Inside: `comparing` finds the places in which two lists of automata or of states differ, `differing` where two
//!   forests do, `autos` makes the automaton that joins two, `joining` the forest, and `lists` goes through a list.
#![tactic(auto)]

mod autos;
mod comparing;
mod differing;
mod joining;
pub mod laws;
mod lists;
mod looks;
mod marks;

pub use differing::joinable;
pub use lists::join_all;
