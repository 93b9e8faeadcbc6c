//! The cell that a step makes.

ghost use Rattle.std.specs.Prelude.{◌≡◌};
ghost use Rattle.c_machine.specs.inner.Needs.{made_at};

use crate::items::Front;
use c_types::program::{Act, PtrRhs};

/// The struct of the cell that an act makes, if it makes one.
pub fn shape_made(front: Front) -> Option<u32>
    ensures { result ≡ made_at front.entry }
{
    match front {
        Front::Act { act, .. } => match act {
            Act::SetPtr {
                from: PtrRhs::New(shape),
                ..
            } => Some(*shape),
            _ => None,
        },
        _ => None,
    }
}
