// The names that are printed in place of numbers.
ghost use Rattle.std.specs.Prelude.{◌≡◌};
ghost use Rattle.fore_base.specs.Shapes as shapes;
ghost use Rattle.fa_named.specs.Structs as structs_spec;
ghost use Rattle.fa_print.specs.Names as spec;

use fa_core::table::BoxTable;
use fore_base::shape::{FieldDef, FieldKind, Shape};

/// The fields of the struct of this number, none where there is no such struct.
pub fn fields_at<'a>(structs: &'a [Shape], shape: u32) -> &'a [FieldDef]
    ensures { result.now ≡ shapes.fields_at structs.entry.now shape }
{
    match structs.get(shape as usize) {
        Some(shape) => shape.fields.as_slice(),
        None => &[],
    }
}

/// The name of the struct of this number.
pub fn struct_name<'a>(structs: &'a [Shape], shape: u32) -> &'a [u8]
    ensures { result.now ≡ spec.struct_name structs.entry.now shape }
{
    match structs.get(shape as usize) {
        Some(shape) => shape.name.as_slice(),
        None => b"",
    }
}

fn is_kept(kind: FieldKind, of_data: bool) -> bool
    ensures { result ≡ structs_spec.is_kept kind of_data }
{
    match kind {
        FieldKind::Pointer(_) => !of_data,
        FieldKind::Datum => of_data,
    }
}

/// The name of the pointer field, or of the data field, of this number.
pub fn field_name<'a>(fields: &'a [FieldDef], of_data: bool, number: usize) -> &'a [u8]
    ensures { result.now ≡ spec.name_at (structs_spec.field_names of_data fields.entry.now) number }
{
    let mut left = number;
    for field in fields {
        if is_kept(field.kind, of_data) {
            if left == 0 {
                return field.name.as_slice();
            }
            left -= 1;
        }
    }
    b""
}

/// The name of the box of this number.
pub fn box_name(table: &BoxTable, number: u32) -> &[u8]
    ensures { result.now ≡ spec.box_name table.now number }
{
    if number < table.len() {
        table.box_def(number).name.as_slice()
    } else {
        b""
    }
}
