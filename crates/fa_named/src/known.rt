// The structs of a program by their names.
ghost use Rattle.std.specs.Prelude.{◌≡◌, ◌++◌, IfOk, OnOk, map};
ghost use Rattle.fa_named.specs.Structs as spec;

use crate::named::{Fields, Known};
use fore_base::list::{Copies, List};
use fore_base::memory::Mem;
use fore_base::shape::{FieldDef, FieldKind, Shape, Shapes};
use fore_base::text::Text;
use std::alloc::Global;

fn is_kept(kind: FieldKind, of_data: bool) -> bool
    ensures { result ≡ spec.is_kept kind of_data }
{
    match kind {
        FieldKind::Pointer(_) => !of_data,
        FieldKind::Datum => of_data,
    }
}

fn add_field(alloc: Global, names: &mut List<Text>, field: &FieldDef, of_data: bool) -> Mem<()>
    ensures { OnOk result (names.new ≡ names.old ++ spec.kept_name of_data field.now) }
{
    if is_kept(field.kind, of_data) {
        let name = field.name.copy(alloc)?;
        names.push(name)?;
    }
    Ok(())
}

/// The names of the pointer fields, or of the data fields, in order.
fn field_names(alloc: Global, fields: &[FieldDef], of_data: bool) -> Mem<List<Text>>
    ensures { IfOk result (λ names. names ≡ spec.field_names of_data fields.now) }
{
    let mut names = List::new(alloc);
    for field in fields {
        add_field(alloc, &mut names, field, of_data)?;
    }
    Ok(names)
}

fn fields_of(alloc: Global, shape: &Shape) -> Mem<Fields>
    ensures { IfOk result (λ f. f ≡ spec.fields_of shape.now) }
{
    let pointers = field_names(alloc, shape.fields.as_slice(), false)?;
    let datums = field_names(alloc, shape.fields.as_slice(), true)?;
    Ok(Fields { pointers, datums })
}

fn struct_names(alloc: Global, structs: &[Shape]) -> Mem<List<Text>>
    ensures { IfOk result (λ names. names ≡ spec.struct_names structs.now) }
{
    let mut names = List::new(alloc);
    for shape in structs {
        let name = shape.name.copy(alloc)?;
        names.push(name)?;
    }
    Ok(names)
}

fn struct_fields(alloc: Global, structs: &[Shape]) -> Mem<List<Fields>>
    ensures { IfOk result (λ all. all ≡ map spec.fields_of structs.now) }
{
    let mut all = List::new(alloc);
    for shape in structs {
        let fields = fields_of(alloc, shape)?;
        all.push(fields)?;
    }
    Ok(all)
}

/// The names of the structs and of their fields.
pub fn known(alloc: Global, shapes: &Shapes) -> Mem<Known>
    ensures { IfOk result (λ k. k ≡ spec.known_of shapes.now) }
{
    let names = struct_names(alloc, shapes.structs.as_slice())?;
    let fields = struct_fields(alloc, shapes.structs.as_slice())?;
    Ok(Known { names, fields })
}
