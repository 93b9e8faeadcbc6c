//! Parallel phases: a list is cut into pieces, which run on threads of their own, and no answer depends on how.
//!
//! - `Crew` says into how many jobs at most a phase is cut; each piece begins at its `Gate`; `NoGate` is the gate that
//!   does nothing.
//! - `first_index` is the least index that meets a predicate, `make_all` makes one product for each item, `fill_rows`
//!   fills each row.
#![tactic(auto)]

pub mod crew;
pub mod crossing;
pub mod filling;
pub mod finding;
pub mod gate;
pub mod making;
mod sharing;

pub use crew::Crew;
pub use filling::{RowWorker, fill_rows};
pub use finding::{Test, first_index};
pub use gate::{Gate, NoGate};
pub use making::{Maker, make_all};

#[cfg(test)]
mod meeting;
#[cfg(test)]
mod turns;
