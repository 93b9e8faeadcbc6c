//! Names, paths, operands, calls and conditions, read from the front of the tokens that are left.
//!
//! Each function reads one rule of the grammar, and has one kind of contract: what it reads, or where it stops.
#![tactic(auto)]

mod conditions;
mod operands;
mod paths;

pub use conditions::{closed_cond, cond};
pub use operands::{arguments, operand};
pub use paths::{arrows, name, path};
