//! Numbers in groups, each with a key of its own.
//!
//! `Groups` has the numbers of each key, in the order in which they joined. `add` takes one into the group of its key;
//! `numbers_of` gives those of one group.
#![tactic(auto)]

pub mod groups;

pub use groups::Groups;
