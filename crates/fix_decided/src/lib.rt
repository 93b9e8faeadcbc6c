//! Explorations of graphs without loop heads: no two nodes are reached by the same edges, so there are no more nodes
//! than prefixes of the graph.
#![tactic(auto)]

pub mod laws;
