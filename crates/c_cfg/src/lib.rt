//! Control graphs: what they are, how a run goes over their edges, and when one is a program's.
//!
//! `graph` has the types, `link` the parts of a step. A graph's edges are those of a program's steps, by one table:
//! each assignment with its loads and its store, each test with an edge for either outcome. `specs/` has the
//! definitions: one edge on a store, a run of a graph, and when a graph is one of a program. `ranges` decides whether
//! numbers of edges are in range, and `laws` has what is known of the graphs of programs. The graph of a program is
//! made in `c_lower`.
#![tactic(auto)]

pub mod crossing;
pub mod graph;
pub mod laws;
pub mod link;
pub mod ranges;

pub use crate::graph::{Const, DataArg, Edge, Graph, Instr, PtrArg};
