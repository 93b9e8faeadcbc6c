// Named boxes can be shared between threads and moved to another.

use crate::fault::NameFault;
use crate::named::NamedBox;
use fore_base::crossing::crosses;

/// Boxes cross threads, and with them what they hold.
pub fn box_crosses(named: &NamedBox) {
    crosses(named)
}

/// Refusals cross threads.
pub fn fault_crosses(fault: &NameFault) {
    crosses(fault)
}
