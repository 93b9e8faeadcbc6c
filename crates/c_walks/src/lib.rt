//! Runs of control graphs on a list of choices.
//!
//! `graph_run` goes from location to location, `outgoing` over the edges of one, and `edge_step` along one edge.
#![tactic(auto)]

mod edge_step;
pub mod graph_run;
mod outgoing;
