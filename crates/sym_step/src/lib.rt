//! One symbolic step: what an edge of a control graph makes of the stores for which a forest stands.
//!
//! `post` takes a canonical forest and an edge. The box edges for the fields that the edge needs are opened, and the
//! forest is split, so that each of these fields ends at one leaf (`opening`), and each root of a variable has one rule
//! (`topping`); each forest of the split is edited, tested for a leak and made canonical (`settling`); forests that
//! differ in one child of one root are joined at the end. `laws` says when a free leaks at once, and `leading` tells
//! it.
#![tactic(auto)]

mod dressing;
pub mod laws;
mod leading;
mod needs;
mod opening;
pub mod posting;
pub mod posts;
mod settling;
mod topping;
mod tops;

pub use posting::post;
pub use posts::{Bad, Post};
