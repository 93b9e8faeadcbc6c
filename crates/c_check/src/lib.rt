//! The rules of names, types and limits, checked: a unit gives its program, or its first fault.
//!
//! `check` is the only call. `items`, with `definitions`, `heads` and `functions`, goes through the items in order.
//! Each keeps the first fault so far, wherever its place is, so that nothing is assumed of places. `units` makes the
//! program of a unit that breaks nothing.
#![tactic(auto)]

mod definitions;
mod functions;
mod heads;
mod items;
mod units;

pub use c_typing::TypeFault;
pub use units::check;
