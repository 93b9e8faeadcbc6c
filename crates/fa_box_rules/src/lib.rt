//! The rules B4 to B7 of boxes in mathematics, and the laws that tie them to sound boxes.
#![tactic(auto)]

pub mod laws;
pub mod rule;

pub use rule::BoxRule;
