//! What the parser knows of the tokens that are left: the next one, its place, what can begin with it, and the levels
//! that are open.
//!
//! `specs/Bounds.antt` has the two words of every parsing function's contract: what it reads (`Reads`), and where it
//! stops (`Stops`).
#![tactic(auto)]

mod begins;
mod levels;
mod reader;

pub use begins::{
    begins_cond, begins_data, begins_declare, begins_ending, begins_item, begins_level,
    begins_operand, begins_params, begins_part, begins_simple,
};
pub use levels::{Level, Levels};
pub use reader::{Bounds, deeper, here, is_next, peek, take};
