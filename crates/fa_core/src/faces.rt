// What boxes show outside, and the structs and boxes over which a forest stands.

use fore_base::list::{Copies, List};
use fore_base::shape::Shapes;
use std::alloc::{AllocError, Global};

/// What a box shows outside.
#[derive(PartialEq, Eq, Drop)]
pub struct BoxFace {
    /// The struct of the cell at which an edge of the box begins.
    pub input: u32,
    /// The struct of the cell at which it ends, where the box has an output.
    pub output: Option<u32>,
    /// The pointer fields that it covers at its input, in rising order.
    pub gives_in: List<u32>,
    /// The pointer fields that it gives to its output, in rising order.
    pub gives_out: List<u32>,
    /// Whether its input is reached from its output by the fields of its inside.
    pub back: bool,
}

/// The structs and the faces of the boxes over which a forest stands. The number of a box is its position here.
#[derive(PartialEq, Eq, Drop)]
pub struct Face {
    pub shapes: Shapes,
    pub boxes: List<BoxFace>,
}

impl Copies for BoxFace {
    fn copy(&self, alloc: Global) -> Result<BoxFace, AllocError> {
        Ok(BoxFace {
            input: self.input,
            output: self.output,
            gives_in: self.gives_in.copy(alloc)?,
            gives_out: self.gives_out.copy(alloc)?,
            back: self.back,
        })
    }
}

impl Copies for Face {
    fn copy(&self, alloc: Global) -> Result<Face, AllocError> {
        Ok(Face {
            shapes: self.shapes.copy(alloc)?,
            boxes: self.boxes.copy(alloc)?,
        })
    }
}
