//! Canonical forests abstracted by height: the quotient of `fa_height`, with its components reduced. The result is
//! canonical again. What it is, is defined in specs/Abstractions.antt.
#![tactic(auto)]

pub mod abstracting;
pub mod laws;

pub use abstracting::abstracted;
