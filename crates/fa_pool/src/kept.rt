// Forests with numbers in the place of their components.

use fa_core::forest::Target;
use fore_base::list::{Copies, List};
use fore_base::store::Datum;
use std::alloc::{AllocError, Global};

/// A forest, whose components stand in a pool: their numbers there, and what the pointer variables and the data
/// variables are.
#[derive(Drop)]
pub struct Kept {
    pub parts: List<usize>,
    pub vars: List<Target>,
    pub data_vars: List<Datum>,
}

impl Copies for Kept {
    fn copy(&self, alloc: Global) -> Result<Kept, AllocError> {
        Ok(Kept {
            parts: self.parts.copy(alloc)?,
            vars: self.vars.copy(alloc)?,
            data_vars: self.data_vars.copy(alloc)?,
        })
    }
}
