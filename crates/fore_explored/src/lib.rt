//! The texts of explorations: the counts, the boxes, and each abstract state with how it was reached.
//!
//! `put_exploration` adds the whole text of an exploration to a text, `put_last` that of what a trace ends with. The
//! forests, boxes and stores in them are printed by `fa_print`.
#![tactic(auto)]

mod explored;
mod heads;
mod states;

pub use explored::put_exploration;
pub use states::put_last;
