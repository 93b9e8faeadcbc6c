// A gate that counts the pieces that begin.

use fore_base::memory::Mem;
use par_kit::gate::Gate;
use std::alloc::Global;
use std::sync::atomic::{AtomicUsize, Ordering};

/// One more than the greatest number of jobs: no phase has a piece of this number or above, and one would be counted
/// as the last of them.
const NUMBERS: usize = 65;

/// How many pieces of each number began.
#[derive(Drop)]
pub struct Noting {
    begun: Vec<AtomicUsize>,
}

impl Noting {
    /// A gate at which none began.
    pub fn new(alloc: Global) -> Mem<Noting> {
        let mut begun = Vec::new(alloc);
        for _number in 0..NUMBERS {
            begun.push(AtomicUsize::new(0))?;
        }
        Ok(Noting { begun })
    }

    /// How many pieces of each number began, from 0 on.
    pub fn counts(&self, alloc: Global) -> Mem<Vec<usize>> {
        let mut counts = Vec::new(alloc);
        for count in self.begun.as_slice() {
            counts.push(count.load(Ordering::SeqCst))?;
        }
        Ok(counts)
    }
}

impl Gate for Noting {
    fn enter(&self, piece: usize) {
        if let Some(count) = self.begun.get(piece.min(NUMBERS - 1)) {
            count.fetch_add(1, Ordering::SeqCst);
        }
    }
}
