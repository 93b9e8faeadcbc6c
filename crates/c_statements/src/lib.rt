//! Declarations, statements and blocks, read from the front of the tokens that are left.
//!
//! Each function reads one rule of the grammar, and has one kind of contract: what it reads, or where it stops.
//! Repetitions are loops; the recursion opens levels, of which at most 64 may be open.
#![tactic(auto)]

mod declarations;
mod flat;
mod loops;
mod statements;

pub use declarations::{alone, data, declare, maybe_from, more_declarators, named};
pub use statements::block;
