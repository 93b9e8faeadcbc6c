//! Sizes, right sides and simple statements, read from the front of the tokens that are left.
//!
//! Each function reads one rule of the grammar, and has one kind of contract: what it reads, or where it stops.
#![tactic(auto)]

mod simples;

pub use simples::{rhs, simple};
