//! Tree automata reduced by simulation: `reduce` gives one with the same language, of which no two states simulate each
//! other and no
//! rule is matched by another one of its state. It joins states that simulate each other (`classes`, `joining`), leaves
//! out rules that
//! others match (`dropping`) and roots that are listed twice (`rooting`), and trims. What is bottom-up deterministic
//! (`determinism`)
//! needs no simulation.
#![tactic(auto)]

mod classes;
mod determinism;
mod dropping;
mod joining;
pub mod reducing;
mod rooting;

pub use reducing::reduce;
