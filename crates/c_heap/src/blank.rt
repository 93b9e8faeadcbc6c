ghost use Rattle.std.specs.Prelude.{◌≡◌, ◌+◌, length, IfOk};
ghost use Rattle.fore_base.specs.Shapes.{targets_in, datums_in, fields_at};
ghost use Rattle.c_types.specs.Steps.{blank};

use fore_base::list::List;
use fore_base::memory::Mem;
use fore_base::shape::{FieldDef, FieldKind, Shape};
use fore_base::store::{CellRec, Datum, Value};
use std::alloc::Global;

/// A new cell of a struct: no field and no datum is set.
pub fn blank_cell(alloc: Global, shapes: &[Shape], number: u64, shape: u32) -> Mem<CellRec>
    ensures { IfOk result (λ cell. cell ≡ blank shapes.now number shape) }
{
    let kinds = fields_of(shapes, shape);
    let fields = List::filled(alloc, Value::Uninit, pointers_in(kinds))?;
    let datums = List::filled(alloc, Datum::Undefined, kinds.len() - pointers_in(kinds))?;
    Ok(CellRec {
        number,
        shape,
        datums,
        fields,
    })
}

/// The fields of the struct of a number; none where there is no such struct.
pub fn fields_of(shapes: &[Shape], shape: u32) -> &[FieldDef]
    ensures { result.now ≡ fields_at shapes.now shape }
{
    match shapes.get(shape as usize) {
        Some(found) => found.fields.as_slice(),
        None => &[],
    }
}

/// How many of the fields are pointers.
fn pointers_in(fields: &[FieldDef]) -> usize
    ensures pointers { result ≡ length (targets_in fields.now) }
    ensures datums { length fields.now ≡ length (targets_in fields.now) + datums_in fields.now }
{
    let mut count = 0;
    for field in fields {
        if let FieldKind::Pointer(_) = field.kind {
            count += 1;
        }
    }
    count
}
