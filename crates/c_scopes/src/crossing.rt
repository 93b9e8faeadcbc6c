// Values that hold only data can be shared between threads and moved to another.

use crate::scopes::{Found, Scope};
use fore_base::crossing::crosses;

/// What a name means crosses threads.
pub fn found_crosses(found: &Found) {
    crosses(found)
}

/// What is in scope crosses threads.
pub fn scope_crosses(scope: &Scope) {
    crosses(scope)
}
