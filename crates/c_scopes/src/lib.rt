//! The variables that are in scope at a place of a body, each found by its name at once, and what heads of functions
//! put there.
//!
//! In `scopes` a name has a number, and under that what it means now; each variable of an open block keeps what its
//! name meant before, which the name means again when the block is closed. Contracts see the `Scope` of `c_typing`, a
//! list of open blocks. `heads` declares results and parameters.
#![tactic(auto)]

pub mod crossing;
pub mod heads;
pub mod scopes;
