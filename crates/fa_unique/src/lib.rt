//! One canonical form: two canonical forests without box edges that have a member in common have for it one dressed
//! forest, up to the numbers of cells.
#![tactic(auto)]

pub mod laws;
