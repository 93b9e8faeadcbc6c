// Steps of folding, as they are recorded.

use crate::boxes::BoxDef;
use fore_base::list::Copies;
use std::alloc::{AllocError, Global};

/// One fold: a part of a forest that a box edge took the place of.
#[derive(Drop)]
pub struct FoldStep {
    /// The box, by its number.
    pub box_no: u32,
    /// The root at the input, before the fold.
    pub input: u32,
    /// The root at the output, before the fold, where the box has one.
    pub output: Option<u32>,
    /// What was folded, with the name and face of the box.
    pub part: BoxDef,
}

impl Copies for FoldStep {
    fn copy(&self, alloc: Global) -> Result<FoldStep, AllocError> {
        Ok(FoldStep {
            box_no: self.box_no,
            input: self.input,
            output: self.output,
            part: self.part.copy(alloc)?,
        })
    }
}
