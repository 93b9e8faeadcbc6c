//! The grammar of the accepted C, as a relation between a list of tokens and a syntax tree, and its laws.
//!
//! `specs/Syntax.antt` has one line for each alternative of each rule, `specs/Hopeless.antt` what it means that a
//! beginning of a
//! text is alive and that a token is hopeless or opens a level too many. `laws` says that a list of tokens has at most
//! one tree.
//! What a token is to the grammar is its `Sign`; why a text is refused is a `SyntaxFault`. No parser stands here.
#![tactic(auto)]

pub mod crossing;
pub mod fault;
pub mod laws;
pub mod signs;

pub use fault::SyntaxFault;
pub use signs::{Sign, sign_of};
