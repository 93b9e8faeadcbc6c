//! Numbers put into classes by a test of which of them are alike: the states of an automaton that are joined, or that
//! agree so far. Each number has the number of its class, and each class its first number.
#![tactic(auto)]

pub mod classes;

pub use classes::{Classes, Likeness, classes_of};
