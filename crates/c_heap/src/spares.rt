//! Room that is made before a step.

ghost use Rattle.std.specs.Prelude.{◌≡◌, []};

use crate::leak::Marks;
use fore_base::store::CellRec;

/// Room for the marks of the leak test and for a cell more, and the cell that the next step makes, if it makes one.
#[derive(Drop)]
pub struct Rooms {
    pub marks: Marks,
    pub seats: Vec<CellRec>,
    pub blank: Option<CellRec>,
    ghost empty: { seats.items ≡ [] },
}
