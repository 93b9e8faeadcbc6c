//! Other leaves in trees: what the signatures of trees become where other leaves, or a tree, stand in the place of
//! references; and dressed forests for all choices of trees.
#![tactic(auto)]

pub mod laws;
