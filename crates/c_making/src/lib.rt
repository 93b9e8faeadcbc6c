//! The statements of the program that parts of a body are.
//!
//! `acts` has what assignments and calls of given functions do, `calling` calls of functions of the file and what these
//! return, `simples` the statements without parts, `declaring` what a declaration declares. `statements` goes through a
//! block, each part in the scope that those before it leave; it looks for nothing that is broken.
#![tactic(auto)]

mod acts;
mod calling;
pub mod declaring;
mod simples;
mod statements;

pub use statements::block_stmts;
