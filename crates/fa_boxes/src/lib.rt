//! What is decided of the inside of one box, before it is a box of a table.
//! `is_some_empty` says whether a component is empty; `tops` what stands at the tops of a component's trees; `signs`
//! which signatures they have, if all trees of each state have one; `fields_of_port` which fields a port covers and is
//! given, if these are the same whichever trees stand in the components.
#![tactic(auto)]

pub mod empty;
mod ports;
mod seeing;
pub mod signing;
pub mod tops;

pub use empty::is_some_empty;
pub use ports::fields_of_port;
pub use signing::signs;
