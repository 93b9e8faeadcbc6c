//! Refusals can be shared between threads and moved to another.

use crate::fault::{ReadFault, Refusal};
use fore_base::crossing::crosses;

/// Why files are not taken crosses threads.
pub fn faults_cross(refusal: &Refusal, fault: &ReadFault) {
    crosses(refusal);
    crosses(fault)
}
