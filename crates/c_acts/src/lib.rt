//! What acts and tests do to a store, and which of them take a choice. None of it takes memory.
//!
//! `paths` and `data` read and write along the arrows of paths, `assigning` does the acts that change the store, and
//! `data` gives the outcome of a test. `taking` says which steps take a choice, and `choices` gives it.
#![tactic(auto)]

pub mod assigning;
pub mod calling;
pub mod choices;
pub mod data;
pub mod paths;
pub mod taking;
