//! The parser of the accepted C: the tree of a list of tokens, or its one refusal.
//!
//! `parse` is the only call. Each function of the other modules reads one rule of the grammar from the front of the
//! tokens that are left, and has one kind of contract: what it reads, or where it stops. Items are read here; what
//! stands in them is read in `c_statements`, `c_simples` and `c_operands`, over the bounds and signs of `c_reader`.
#![tactic(auto)]

mod enums;
mod fields;
mod functions;
mod globals;
mod heads;
mod items;
mod whole;

pub use c_grammar::SyntaxFault;
pub use whole::parse;
