// The parts of a step: what leads from one location to the next.

use crate::graph::Instr;

/// One edge, or the two edges for the choices 0 and 1.
#[derive(Drop)]
pub enum Link {
    /// An edge without a choice.
    One(Instr),
    /// The edge for the choice 0, and the edge for the choice 1.
    Two(Instr, Instr),
}
