//! A store of automata, in which each has a number, and forests that are kept by the numbers of their components.
//!
//! - `Pool` holds automata, none twice; contracts see the list of them. `Pool::keep` gives the numbers of the
//! components of a forest, and adds those that are not there; `Pool::forest` is the way back.
//! - `Kept` is a forest with numbers in the place of its components.
//! - `indexes` has numbers in lists by keys, and `looks` the key of what a forest looks like.
//!
//! Automata are one where they are equal as values: states, root states and rules in their order.
#![tactic(auto)]

pub mod crossing;
pub mod indexes;
pub mod kept;
pub mod keys;
pub mod looks;
mod numbering;
pub mod pool;
mod tight;

pub use kept::Kept;
pub use pool::Pool;
