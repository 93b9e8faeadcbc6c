// Values that hold only data can be shared between threads and moved to another.
use crate::refused::Refusal;
use fore_base::crossing::crosses;

/// Refusals cross threads.
pub fn refusal_crosses(refusal: &Refusal) {
    crosses(refusal)
}
