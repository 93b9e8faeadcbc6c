//! Files of boxes, line by line.
//!
//! `line_of` gives what a line says: that a box begins or ends, that a component begins, a rule, or that it is passed
//! over. `laws` says that a line says at most one thing.
#![tactic(auto)]

pub mod crossing;
mod items;
pub mod laws;
pub mod line;
mod pieces;
mod reading;
mod terms;
mod texts;
mod unread;

pub use line::{DatumText, Line, SlotText, Term};
pub use reading::line_of;
