//! What is reached in the inside of a box, for every choice of one signature of each component.
#![tactic(auto)]

pub mod answer;
mod asking;
mod avoiding;
mod choices;
mod choosing;
pub mod deciding;
pub mod laws;
mod merging;
mod part;
mod parting;
mod spreading;
mod steps;
mod sweeping;

pub use answer::Lead;
pub use deciding::{lead, reach_all};
