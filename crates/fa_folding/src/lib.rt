//! Folding of forests: where the part of a forest that is within a box is put inside an edge of that box, the dressed
//! forests stay, and so do the members. The components of the forest after a fold.
#![tactic(auto)]

pub mod gaining;
pub mod laws;
