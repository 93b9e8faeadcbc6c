//! Which functions of a file lead to which by calls, and what they weigh.
//!
//! - `graph::CallGraph` holds the calls of a file. `leading_to`, `leads_to` and `is_recursive` say what leads where,
//! and `weigh` what each function weighs, up to a cap.
//! - `laws` says that chains of calls no longer than there are functions tell all of it.
//!
//! Functions are numbers here: what a call is, and which statements count, is for the crates above to say.
#![tactic(auto)]

pub mod crossing;
pub mod graph;
pub mod laws;
mod turning;
mod weighing;

pub use crate::graph::CallGraph;
