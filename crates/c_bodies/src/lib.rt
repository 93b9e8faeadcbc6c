//! What declarations, statements and blocks break, each in its scope.
//!
//! `bodies` goes through a block, and `types` has the types that declarations and heads name. Each keeps the first
//! fault so far, wherever its place is.
#![tactic(auto)]

pub mod bodies;
pub mod types;
