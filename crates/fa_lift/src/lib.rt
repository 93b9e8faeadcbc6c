//! The cell of a box edge that gives a field to a root, lifted out of its component: it becomes a root with one rule,
//! and the edge stands in a slot of it. In each of the forests the root keeps its number, and together they have the
//! members of the first.
#![tactic(auto)]

pub mod lifting;
mod lifting_automata;
pub mod lifting_laws;
mod lifting_owners;

pub use lifting::{can_lift, lift_parent};
pub use lifting_owners::{may_refer, slot_gives};
