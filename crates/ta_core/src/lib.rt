//! Tree automata over the symbols of cells: their runs and languages, and what is computed of them.
//!
//! - `Tree`, `Symbol` and `Slot` are the trees, which can be deeper than calls can go; `Auto` and `Rule` the automata.
//! - `accepts`, `is_empty`, `smallest_tree` and `top_states` look at languages; `inhabited::inhabited` says which
//! states have trees, and `single::has_one_top` whether one rule stands at the top.
//! - `trim`, `rename`, `union` and `renumber` make automata; `room` says whether there are numbers left for more
//! states.
//! - `tables` has automata written as tables; `laws` says what runs keep; `crossing` that all this is shared between
//! threads.
//! - `rounds` and `results` are for the crates above: rounds until nothing changes, and results that are taken off a
//! list's end.
#![tactic(auto)]

pub mod accepting;
mod arc;
pub mod auto;
mod closing;
mod comparing;
pub mod crossing;
mod growing;
pub mod inhabited;
pub mod joining;
pub mod laws;
mod ranked;
pub mod renumbering;
mod restricting;
pub mod results;
pub mod rounds;
mod running;
pub mod single;
mod sizes;
pub mod smallest;
pub mod symbol;
pub mod tables;
pub mod tree;
pub mod trimming;

pub use accepting::{accepts, top_states};
pub use auto::{Auto, Rule};
pub use inhabited::is_empty;
pub use joining::{rename, room, union};
pub use renumbering::renumber;
pub use rounds::{Rounds, Taker, settle, take_all};
pub use smallest::smallest_tree;
pub use symbol::{Slot, Symbol};
pub use tree::Tree;
pub use trimming::trim;
