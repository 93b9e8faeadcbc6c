// The signatures of a component that lead back alike.

use fa_back::Hop;
use fore_base::list::{Copies, List};
use std::alloc::{AllocError, Global};

/// What signatures of one component say that lead back alike: where they lead back, and the roots to which each of them
/// refers.
#[derive(Drop)]
pub struct Part {
    pub hops: List<Hop>,
    pub downs: List<List<u32>>,
}

impl Copies for Part {
    fn copy(&self, alloc: Global) -> Result<Part, AllocError> {
        Ok(Part {
            hops: self.hops.copy(alloc)?,
            downs: self.downs.copy(alloc)?,
        })
    }
}
