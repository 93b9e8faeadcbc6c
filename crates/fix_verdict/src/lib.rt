//! What the ends of an exploration say of the program.
//!
//! `judge` gives the verdict. Where the nodes are closed no run faults, and a trace counts only where the program's own
//! run on its choices meets a fault. `laws` has the theorem on closed nodes alone. The definitions stand in `specs/`.
#![tactic(auto)]

pub mod laws;
pub mod verdict;

pub use verdict::{Verdict, judge};
