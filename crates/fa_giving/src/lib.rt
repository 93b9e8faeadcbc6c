//! Rule B4 of boxes: whether each field of each inner cell is given exactly once and no field of a port twice, slots
//! stand in order, and edges end where they may.
#![tactic(auto)]

mod below;
mod deciding;
mod roots;
mod shapes;
mod totals;
mod worths;

pub use deciding::are_right;
