// Lines can be shared between threads and moved to another.

use crate::line::Line;
use fore_base::crossing::crosses;

/// Lines cross threads, and with them what they hold.
pub fn line_crosses(line: &Line) {
    crosses(line)
}
