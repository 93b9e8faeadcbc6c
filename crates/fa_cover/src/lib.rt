//! When one forest covers another: whether it does, and the first node of a list that does.
//!
//! - `covers` decides the definition `Covers` of `fa_core`: equal targets and data, as many roots, and each component
//! within that in its place.
//! - `are_within` says it of two lists of automata.
//! - `first_cover` is the least index of a list whose node covers a forest.
#![tactic(auto)]

pub mod components;
pub mod covering;
mod forests;
mod tops;

pub use components::are_within;
pub use covering::{covers, first_cover};
