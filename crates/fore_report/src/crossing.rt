//! Verdicts can be shared between threads and moved to another.

use crate::verdict::Verdict;
use fore_base::crossing::crosses;

/// Verdicts cross threads.
pub fn verdict_crosses(verdict: &Verdict) {
    crosses(verdict)
}
