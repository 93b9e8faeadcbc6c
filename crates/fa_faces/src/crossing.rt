// Why a box has no face can be shared between threads and moved to another.

use crate::fault::FaceFault;
use fore_base::crossing::crosses;

/// Faults cross threads.
pub fn fault_crosses(fault: &FaceFault) {
    crosses(fault)
}
