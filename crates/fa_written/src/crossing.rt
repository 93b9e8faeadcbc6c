// Boxes as they are written can be shared between threads and moved to another.

use crate::draft::BoxDraft;
use crate::fault::DraftFault;
use fore_base::crossing::crosses;

/// Boxes cross threads, and with them what they hold.
pub fn draft_crosses(draft: &BoxDraft) {
    crosses(draft)
}

/// Refusals cross threads.
pub fn fault_crosses(fault: &DraftFault) {
    crosses(fault)
}
