//! Automata and forests cut by signature: `cut_auto` cuts one automaton into pieces, each with the trees of one
//! signature, and `split_signatures` a forest into sound forests, one for each choice of one signature of each
//! component. So any edit of a forest that keeps each field given exactly once becomes a list of sound forests. Laws on
//! forests that are cut are in `laws`.
#![tactic(auto)]

pub mod cutting;
pub mod filling;
pub mod laws;
mod pairing;
mod parts;
mod products;
pub mod signatures;
mod telling;

pub use cutting::cut_auto;
pub use filling::is_filled;
pub use signatures::split_signatures;
