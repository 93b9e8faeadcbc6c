//! What the edges of its location make of a node: members that meet a fault, or the states to which an edge leads.
//!
//! `images_of` says it of each edge: a fault first, else the states of the cases of its post, which are folded,
//! regrouped and abstracted at loop heads and carried on elsewhere. `Task` holds what an exploration is asked to do,
//! and `exits_of` lists the edges of each location.
#![tactic(auto)]

pub mod arrivals;
pub mod exits;
pub mod images;
mod posts;
mod settling;
pub mod task;

pub use exits::exits_of;
pub use images::{EdgeImage, Image, copy_bad, images_of};
pub use task::Task;
