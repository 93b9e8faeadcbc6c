// Memos hold only data: they can be shared between threads and moved to another.

use crate::memo::Memo;
use fore_base::crossing::crosses;

/// Memos cross threads.
pub fn memo_crosses(memo: &Memo) {
    crosses(memo)
}
