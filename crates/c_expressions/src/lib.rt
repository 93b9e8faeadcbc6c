//! Operands, paths, calls, right sides and conditions: what they break, and what they are.
//!
//! `first` keeps the first fault so far. `noting` says what one place of an expression breaks, by what is wanted there
//! (`wants`) and what stands there (`meanings`). `calls`, `arguments`, `operands` and `conditions` go through the
//! places of larger parts in order; `conditions` gives the formula of a condition too.
#![tactic(auto)]

pub mod arguments;
pub mod calls;
pub mod conditions;
pub mod first;
pub mod meanings;
pub mod noting;
pub mod operands;
pub mod wants;
