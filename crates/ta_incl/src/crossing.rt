// Answers on inclusion can be shared between threads and moved to another.

use crate::inclusion::Inclusion;
use fore_base::crossing::crosses;

/// Answers cross threads, and with them pairs and trees.
pub fn answers_cross(answer: &Inclusion) {
    crosses(answer)
}
