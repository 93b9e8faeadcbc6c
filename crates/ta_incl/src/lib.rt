//! Inclusion of the languages of tree automata (CAV 2011, section 4).
//!
//! - `included` says whether each tree of one automaton is one of another, with pairs that show it or a tree that
//! refutes it; `is_included` says it alone, and makes no tree.
//! - `Inclusion` is the answer, and `Pair` what a Yes carries: a state of the left automaton with a set of states of
//! the right one.
//! - `are_equal` says whether two automata are equal as values.
//! - The search (`searching`) finds pairs from the leaves upward, step by step (`exploring`), and drops those that
//! others cover (`found`), by what is below what (`order`); `failing` finds one that shows a No, `growing` makes its
//! tree, and `thinning` keeps the pairs of a Yes.
#![tactic(auto)]

mod comparing;
pub mod crossing;
mod exploring;
mod failing;
mod found;
mod growing;
pub mod including;
pub mod inclusion;
mod order;
mod searching;
mod thinning;

pub use comparing::are_equal;
pub use including::{included, is_included};
pub use inclusion::{Inclusion, Pair};
