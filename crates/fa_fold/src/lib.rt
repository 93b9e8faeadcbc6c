//! Folding: whether a part of a forest is within its box, and the forest with an edge of the box in its place. The
//! definitions are those of `fa_core`.
#![tactic(auto)]

pub mod all;
mod folded;
pub mod folds;
pub mod least;
pub mod within;

pub use all::fold_all;
pub use folds::fold_once;
pub use least::{FoldSite, least_fold};
pub use within::is_within;
