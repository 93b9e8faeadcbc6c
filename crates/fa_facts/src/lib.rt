//! The facts of dressed forests: through boxes of any level, each cell has the fields of its struct, each once, and
//! each cell that is named is there.
#![tactic(auto)]

pub mod laws;
