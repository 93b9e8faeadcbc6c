// The boxes that stand before a line.
ghost use Rattle.std.specs.Prelude.{◌≡◌, IfOk};
ghost use Rattle.fa_named.specs.Earlier as spec;

use crate::named::Boxes;
use fa_written::Head;
use fore_base::list::{Copies, List};
use fore_base::memory::Mem;
use std::alloc::Global;

/// No boxes.
pub fn none(alloc: Global) -> Boxes
    ensures { result ≡ spec.no_boxes }
{
    Boxes {
        names: List::new(alloc),
        outputs: List::new(alloc),
    }
}

/// The boxes, with one more behind them.
pub fn with_box(alloc: Global, boxes: Boxes, head: &Head) -> Mem<Boxes>
    ensures { IfOk result (λ more. more ≡ spec.with_box boxes head.now) }
{
    let Boxes {
        mut names,
        mut outputs,
    } = boxes;
    let name = head.name.copy(alloc)?;
    names.push(name)?;
    outputs.push(head.output.is_some())?;
    Ok(Boxes { names, outputs })
}
