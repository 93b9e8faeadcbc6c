// Canonical forests: roots merged, one rule chosen for each, knots cut, and the roots placed in the order of the walk.
#![tactic(auto)]

mod choosing;
mod cutting;
pub mod making;
mod merging;
mod steps;

pub use making::canonical;
