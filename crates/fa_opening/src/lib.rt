//! Box edges opened for one field of a root's cell: where a box edge covers the field, or gives it to the cell, it is
//! replaced by the inside of its box, until the field is a slot of the root's one rule, or none of the struct's.
//!
//! `open_edges` does this, `open_field` splits the field's child after it, so that one leaf stands there, and
//! `open_cell` does it for each field of the cell. Each cell and slot but those edges stays, and the forests have
//! together the members of the first.
#![tactic(auto)]

pub mod applying;
mod choosing;
pub mod clearing;
mod covering;
pub mod fields;
mod giving;
pub mod opening;
mod unfolding;

pub use clearing::open_cell;
pub use fields::open_field;
pub use opening::{can_open, open_edges};
