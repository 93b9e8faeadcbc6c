//! The tokens of a C text.
//!
//! `tokens` gives every text either its list of tokens, each with its place, or its first refusal: a byte at which no
//! token begins (L1), or a
//! comment that is not closed (L2). `end_place` gives the place behind its last byte.
#![tactic(auto)]

pub mod bytes;
mod class;
pub mod crossing;
pub mod fault;
pub mod laws;
mod place;
mod reader;
mod scan;
mod step;
pub mod token;

pub use fault::LexFault;
pub use place::end_place;
pub use reader::tokens;
pub use token::{TokKind, Token};
