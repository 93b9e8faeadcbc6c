//! Which functions the functions of a file call, and what `main` weighs.
//!
//! - `calls_of` has for each function, and for `main` after them, the functions that its body calls; `call_graph` is
//! the graph of these calls, and `Calls` tells at once which of them lead to which.
//! - `statements_of` has how many statements each body has, `main_weight` what `main` weighs, and `is_overweight`
//! whether that is too much.
//!
//! `functions` has the names of the functions in their order, and `bodies` the body of a name and the head of `main`;
//! `operands` and `statements` go through a body for what it calls, `counting` for how many statements it has, and
//! which is the first behind so many.
#![tactic(auto)]

mod bodies;
mod calling;
mod counting;
pub mod crossing;
mod functions;
mod operands;
mod statements;
mod weighing;

pub use bodies::{body_named, main_head};
pub use calling::{Calls, call_graph, calls_of};
pub use counting::place_behind;
pub use functions::is_main;
pub use weighing::{is_overweight, main_weight, statements_of};
