//! Prefixes of a control graph: the lists of edges that begin at its entry, how many there are, and that the graph of a
//! program without loops has a number of them.
#![tactic(auto)]

pub mod laws;
