// Values that hold only data can be shared between threads and moved to another.

use crate::definitions::Definitions;
use fore_base::crossing::crosses;

/// Definitions cross threads.
pub fn definitions_cross(definitions: &Definitions) {
    crosses(definitions)
}
