// Pools and kept forests hold only data: they can be shared between threads and moved to another.

use crate::kept::Kept;
use crate::pool::Pool;
use fore_base::crossing::crosses;

/// Pools cross threads, and kept forests.
pub fn pool_crosses(pool: &Pool, kept: &Kept) {
    crosses(pool);
    crosses(kept)
}
