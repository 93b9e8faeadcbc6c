// Values that hold only data can be shared between threads and moved to another.

use crate::mode::MallocMode;
use crate::outcome::Outcome;
use crate::program::Typed;
use fore_base::crossing::crosses;

/// Programs cross threads, and with them all their parts.
pub fn program_crosses(program: &Typed) {
    crosses(program)
}

/// Modes of `malloc` cross threads.
pub fn mode_crosses(mode: &MallocMode) {
    crosses(mode)
}

/// Outcomes cross threads.
pub fn outcome_crosses(outcome: &Outcome) {
    crosses(outcome)
}
