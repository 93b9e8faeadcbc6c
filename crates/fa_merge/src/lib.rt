// Merging of forests: roots that stand in another order, a component merged into the one tree that refers to its root,
// a cell that is dropped; and which roots are reached, from which it follows whether a forest's members leak.
#![tactic(auto)]

pub mod counting;
pub mod dead;
mod grafting;
pub mod idle;
mod joins;
pub mod laws;
pub mod leaking;
pub mod merge;
mod merging;
mod orders;
pub mod placing;
mod signing;

pub use counting::{can_merge, is_target};
pub use dead::drop_dead;
pub use idle::is_idle;
pub use leaking::leaking_root;
pub use merge::{merge_root, reorder};
pub use placing::symbol_of;
pub use signing::{component_signature, component_signatures};
