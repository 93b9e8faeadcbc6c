//! Abstract traces: from a node of an exploration back to node 0, and over one edge more.
//!
//! `trace_to` gives the numbers of the nodes on the way, the choices of its edges, and the members that meet the fault
//! on the last edge, with that edge's line.
#![tactic(auto)]

pub mod trace;

pub use trace::trace_to;
