//! A box edge of a root replaced by the inside of its box.
#![tactic(auto)]

mod cuts;
mod edges;
mod ends;
pub mod growing;
pub mod laws;
mod lists;
mod placing;
mod replacing;
mod roots;
pub mod slots;
mod tables;
mod tops;
mod whole;

pub use edges::can_unfold;
pub use fa_split::slots_of;
pub use slots::rule_places;
pub use whole::unfold;
