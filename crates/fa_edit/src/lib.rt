//! Forests with one thing changed: a leaf in a pointer field of a root, a datum of a root, a new cell as a last root,
//! or what the variables are.
//!
//! Each call says what becomes of the dressed forests, for every table of boxes; the result is a sound forest over the
//! same face. A root state may stand inside its own component, so the root of a changed component is a new state, and
//! the old states stay below it.
#![tactic(auto)]

pub mod cells;
pub mod data;
pub mod leaves;
mod tops;
pub mod vars;

pub use cells::with_cell;
pub use data::{datum_of, with_datum};
pub use leaves::{is_plain_at, leaf_fits, leaf_of, with_leaf};
pub use tops::place_of;
pub use vars::with_vars;
