// Values that hold only data can be shared between threads and moved to another.

use crate::calling::Calls;
use fore_base::crossing::crosses;

/// The calls of a file cross threads.
pub fn calls_cross(calls: &Calls) {
    crosses(calls)
}
