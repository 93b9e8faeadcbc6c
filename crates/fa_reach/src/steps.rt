// How much is looked at before the work is given up.

use crate::part::Part;
use fore_base::list::List;
use fore_base::memory::Mem;
use std::alloc::AllocError;

/// The most steps for one question: so many that they take a fraction of a second, at some nanoseconds for a look, and
/// that 65,536 choices of sixteen small components are gone through.
const MOST_STEPS: usize = 67_108_864;

/// What a list that is made counts: taking memory for it takes as long as some looks.
const LIST_STEPS: usize = 8;

/// How many steps may still be taken.
#[derive(Drop)]
pub struct Steps {
    left: usize,
}

impl Steps {
    /// At first.
    pub fn new() -> Steps {
        Steps { left: MOST_STEPS }
    }

    /// Takes off what it costs to look at each root of these parts once.
    ///
    /// # Errors
    ///
    /// Want of memory where too little is left.
    pub fn take(&mut self, parts: &[Part]) -> Mem<()> {
        let mut left = self.left;
        for part in parts {
            left = left.saturating_sub(root_count(part.downs.as_slice(), part.hops.len()));
        }
        self.left = left;
        if left == 0 { Err(AllocError) } else { Ok(()) }
    }

    /// Takes off what it costs to make these parts.
    ///
    /// # Errors
    ///
    /// Want of memory where too little is left.
    pub fn take_lists(&mut self, parts: &[Part]) -> Mem<()> {
        let mut left = self.left;
        for part in parts {
            left = left.saturating_sub(
                part.downs
                    .len()
                    .saturating_add(2)
                    .saturating_mul(LIST_STEPS),
            );
        }
        self.left = left;
        if left == 0 { Err(AllocError) } else { Ok(()) }
    }
}

fn root_count(downs: &[List<u32>], hops: usize) -> usize {
    let mut steps = hops.saturating_add(1);
    for down in downs {
        steps = steps.saturating_add(down.len());
    }
    steps
}
