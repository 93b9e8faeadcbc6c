// Refusals can be shared between threads and moved to another.

use crate::fault::BoxFault;
use fore_base::crossing::crosses;

/// Refusals cross threads.
pub fn fault_crosses(fault: &BoxFault) {
    crosses(fault)
}
