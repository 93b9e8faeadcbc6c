//! Reports as rows compare them: components by their trees, and not by the automata that accept these.
#![tactic(auto)]

mod chains;
mod least;

pub use least::least_report;
