// Values that hold only data can be shared between threads and moved to another.

use crate::explored::Explored;
use fore_base::crossing::crosses;

/// What an exploration finds crosses threads, and with it nodes and traces.
pub fn explored_crosses(found: &Explored) {
    crosses(found)
}
