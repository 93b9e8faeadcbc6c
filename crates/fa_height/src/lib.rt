//! Height abstraction of forests: `abstract_height` joins, in each component, the inner states that agree to a height
//! and have equal signatures. What agreement is, and the quotient that it gives, is defined in specs/Quotients.antt.
#![tactic(auto)]

pub mod abstracting;
mod agreeing;
mod joining;

pub use abstracting::abstract_height;
