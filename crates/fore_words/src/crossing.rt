//! What words ask can be shared between threads and moved to another.

use crate::asked::{Asked, WordsFault};
use fore_base::crossing::crosses;

/// What is asked crosses threads, and with it what it holds.
pub fn asked_crosses(asked: &Asked<'_>) {
    crosses(asked)
}

/// Why words are not read crosses threads.
pub fn fault_crosses(fault: &WordsFault) {
    crosses(fault)
}
