// Whether a part of a forest is within its box.

ghost use Rattle.std.specs.Prelude.{◌↔◌, IsTrue, IfOk};
ghost use Rattle.fa_core.specs.Folding.{IsPartWithin};
ghost use Rattle.fa_core.specs.LeastFolds.{CanFold};
ghost use Rattle.fa_fold.specs.inner.Fields.{AreBoxFields};
ghost use Rattle.fa_part.specs.Sites.{IsSite};

use fa_core::boxes::BoxDef;
use fa_core::table::BoxTable;
use fa_cover::are_within;
use fa_part::{PortFields, box_fields, part_by};
use fa_sound::Sound;
use fore_base::memory::Mem;
use std::alloc::Global;

/// Whether the forest has a part for the box at these roots, and it is within the box: it has as many components as the
/// box's inside, each with a language within that in its place. Boxes are symbols here.
///
/// Roots, structs, fields, the number of components and the symbols at the tops of trees are compared before any
/// language.
///
/// # Errors
///
/// Want of memory.
pub fn is_within(
    alloc: Global,
    forest: &Sound,
    table: &BoxTable,
    box_no: u32,
    input: u32,
    output: Option<u32>,
) -> Mem<bool>
    requires { IsSite table.now forest.now.forest box_no input output }
    ensures { IfOk result (λ yes. IsTrue yes ↔ CanFold table.now forest.now.forest box_no input output) }
{
    let fields = box_fields(alloc, table, box_no)?;
    is_within_by(alloc, forest, table, &fields, box_no, input, output)
}

/// Whether it is, for a box of which it is known which fields its ports cover. Err is want of memory.
pub(crate) fn is_within_by(
    alloc: Global,
    forest: &Sound,
    table: &BoxTable,
    fields: &PortFields,
    box_no: u32,
    input: u32,
    output: Option<u32>,
) -> Mem<bool>
    requires site { IsSite table.now forest.now.forest box_no input output }
    requires fields { AreBoxFields table.now box_no fields.now }
    ensures { IfOk result (λ yes. IsTrue yes ↔ CanFold table.now forest.now.forest box_no input output) }
{
    forest.known();
    let def = table.box_def(box_no);
    match part_by(alloc, forest, def, fields, input, output)? {
        None => Ok(false),
        Some(part) => is_part_within(alloc, &part, def),
    }
}

/// Whether the part is within the box. Err is want of memory.
fn is_part_within(alloc: Global, part: &BoxDef, def: &BoxDef) -> Mem<bool>
    ensures { IfOk result (λ yes. IsTrue yes ↔ IsPartWithin part.now def.now) }
{
    are_within(
        alloc,
        part.inside.autos.as_slice(),
        def.inside.autos.as_slice(),
    )
}
