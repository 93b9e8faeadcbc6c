//! The concrete machine: a program's store and what is left to do, a step at a time, and runs of a program on a list of
//! choices.
//!
//! `Machine` takes the steps. `reserve` opens what comes next and makes room, so that `step` takes no memory. `run` is
//! a loop over it. What is left to do lies on a stack that borrows the program; a rest of a list is one entry.
#![tactic(auto)]

mod acting;
mod answering;
mod calling;
mod items;
mod leaving;
mod losing;
mod machine;
mod opening;
mod rooms;
pub mod run;
pub mod state;

pub use crate::state::{Machine, Turn};
pub use c_types::outcome;
