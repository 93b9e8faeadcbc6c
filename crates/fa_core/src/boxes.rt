// Boxes: forests that stand for edges.

use crate::faces::BoxFace;
use crate::forest::Forest;
use fore_base::list::Copies;
use fore_base::text::Text;
use std::alloc::{AllocError, Global};

/// A box: its name, its face, and the forest that stands for an edge of it. Root 0 of the inside is the input, root 1
/// the output where there is one, and further roots are inner cells.
#[derive(Drop)]
pub struct BoxDef {
    pub name: Text,
    pub face: BoxFace,
    pub inside: Forest,
}

impl Copies for BoxDef {
    fn copy(&self, alloc: Global) -> Result<BoxDef, AllocError> {
        Ok(BoxDef {
            name: self.name.copy(alloc)?,
            face: self.face.copy(alloc)?,
            inside: self.inside.copy(alloc)?,
        })
    }
}
