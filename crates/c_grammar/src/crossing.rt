// Values that hold only data can be shared between threads and moved to another.

use crate::fault::SyntaxFault;
use crate::signs::Sign;
use fore_base::crossing::crosses;

/// Signs cross threads.
pub fn sign_crosses(sign: &Sign) {
    crosses(sign)
}

/// Refusals cross threads.
pub fn fault_crosses(fault: &SyntaxFault) {
    crosses(fault)
}
