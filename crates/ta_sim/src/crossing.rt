// Relations can be shared between threads and moved to another.

use crate::relation::Relation;
use fore_base::crossing::crosses;

/// Relations cross threads.
pub fn relations_cross(relation: &Relation) {
    crosses(relation)
}
