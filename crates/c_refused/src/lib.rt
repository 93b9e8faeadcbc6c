//! The tokens that no accepted program has: words, punctuators, quotations, directives and numbers of C that this part
//! of the language leaves out.
//! Each is refused by a rule of its own, whatever the grammar says, and the first one counts.
#![tactic(auto)]

pub mod crossing;
pub mod laws;
mod refused;

pub use refused::{Refusal, first_refused};
