//! The exploration of a control graph by abstract states: a work list of nodes, each the image of an edge from an
//! earlier one.
//!
//! `explore` takes the nodes up in order. It ends closed, where every node is done; faulty, with an abstract trace; or
//! spent, where the budget is full. `fix_core` says what an exploration is and keeps its nodes, `fix_successors` what
//! an edge makes of a node, `fix_trace` the way to one, and `fix_verdict`, by `judge`, what that means for the program.
#![tactic(auto)]

mod crews;
pub mod exploring;
mod first;
mod rounds;
mod taking;

pub use exploring::explore;
pub use fix_core::{AbsTrace, Explored, Node, NodeHead, Nodes, State};
