// Values that hold only data can be shared between threads and moved to another.

use crate::tables::Tables;
use fore_base::crossing::crosses;

/// What the items of a unit define crosses threads.
pub fn tables_cross(tables: &Tables) {
    crosses(tables)
}
