//! Explorations of a control graph by abstract states, as definitions and as values: the states, the nodes, and the
//! traces.
//!
//! A node is a set of stores at a location, given by a forest. `Nodes` keeps the nodes of an exploration, with the
//! components of their forests in one pool; a state becomes a node only where no node of its location covers it.
//! `specs/` says when nodes are an exploration, and what its three ends are.
#![tactic(auto)]

mod alike;
mod counting;
pub mod crossing;
pub mod edges;
pub mod explored;
mod held;
pub mod nodes;
pub mod numbers;
pub mod states;

pub use explored::{AbsTrace, Explored};
pub use nodes::{Due, Node, NodeHead, Nodes, Placed};
pub use states::State;
