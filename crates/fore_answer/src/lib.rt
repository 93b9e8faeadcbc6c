//! What Forester answers, and how an answer reaches the outside.
//!
//! `Answer` is what was found, refused or not read (`answer`). `deliver` writes its text whole to one of two sinks and
//! gives the status with which the program ends (`deliver`, with `texts` and `status`).
#![tactic(auto)]

pub mod answer;
pub mod deliver;
pub mod status;
mod texts;
