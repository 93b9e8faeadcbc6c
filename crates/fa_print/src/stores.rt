// The texts of stores.
ghost use Rattle.std.specs.Prelude.{◌≡◌, ◌++◌, ◌∷◌, [], false, codes, flat_map, IfOk, OnOk};
ghost use Rattle.std.specs.List.{concat};
ghost use Rattle.fa_lines.specs.Spelling.{series};
ghost use Rattle.fa_named.specs.Structs.{field_names};
ghost use Rattle.fa_print.specs.Conditions.{IsStoreOf};
ghost use Rattle.fa_print.specs.Names as naming;
ghost use Rattle.fa_print.specs.Texts as spec;

use crate::cells::put_struct;
use crate::names::{field_name, fields_at};
use crate::slots::put_comma;
use crate::variables::{put_datum_lines, put_values};
use c_types::program::Typed;
use fore_base::memory::Mem;
use fore_base::shape::{FieldDef, Shape};
use fore_base::store::{CellRec, Store, Value};
use fore_base::text::Text;
use std::alloc::Global;

fn put_cell_number(text: &mut Text, number: u64) -> Mem<()>
    ensures { OnOk result (text.new ≡ text.old ++ spec.value_text (Value.Cell number)) }
{
    text.put(b"cell ")?;
    text.put_number(number)?;
    Ok(())
}

fn put_value(text: &mut Text, value: Value) -> Mem<()>
    ensures { OnOk result (text.new ≡ text.old ++ spec.value_text value) }
{
    match value {
        Value::Null => text.put(b"null"),
        Value::Uninit => text.put(b"uninit"),
        Value::Dangling => text.put(b"dangling"),
        Value::Cell(number) => put_cell_number(text, number),
    }
}

/// The value of a field behind its name.
fn put_field(text: &mut Text, name: &[u8], value: Value) -> Mem<()>
    ensures { OnOk result (text.new ≡ text.old ++ concat (name.now ∷ codes "=" ∷ spec.value_text value ∷ [])) }
{
    text.put(name)?;
    text.put(b"=")?;
    put_value(text, value)?;
    Ok(())
}

/// The values of the fields of a cell, and a comma between two.
fn put_fields(text: &mut Text, fields: &[FieldDef], values: &[Value]) -> Mem<()>
    ensures { OnOk result (text.new ≡ text.old
        ++ concat (series (spec.field_pieces (field_names false fields.now) 0 values.now))) }
{
    for (i, value) in values.iter().enumerate() {
        put_comma(text, i)?;
        put_field(text, field_name(fields, false, i), *value)?;
    }
    Ok(())
}

/// The values of the fields of a cell of this struct.
fn put_struct_fields(text: &mut Text, structs: &[Shape], shape: u32, values: &[Value]) -> Mem<()>
    ensures { OnOk result (text.new ≡ text.old
        ++ concat (series (spec.field_pieces (naming.pointer_names structs.now shape) 0 values.now))) }
{
    put_fields(text, fields_at(structs, shape), values)?;
    Ok(())
}

/// The struct of a cell, its data and its fields.
fn put_record(text: &mut Text, structs: &[Shape], cell: &CellRec) -> Mem<()>
    ensures { OnOk result (text.new ≡ text.old ++ spec.record_text structs.now cell.now) }
{
    put_struct(text, structs, cell.shape, cell.datums.as_slice())?;
    text.put(b"(")?;
    put_struct_fields(text, structs, cell.shape, cell.fields.as_slice())?;
    text.put(b")")?;
    Ok(())
}

/// The line of a cell.
fn put_cell(text: &mut Text, structs: &[Shape], cell: &CellRec) -> Mem<()>
    ensures { OnOk result (text.new ≡ text.old ++ spec.cell_line structs.now cell.now) }
{
    put_cell_number(text, cell.number)?;
    text.put(b" ")?;
    put_record(text, structs, cell)?;
    text.put(b"\n")?;
    Ok(())
}

fn put_cells(text: &mut Text, structs: &[Shape], cells: &[CellRec]) -> Mem<()>
    ensures { OnOk result (text.new ≡ text.old ++ flat_map (spec.cell_line structs.now) cells.now) }
{
    for cell in cells {
        put_cell(text, structs, cell)?;
    }
    Ok(())
}

/// The text of a store of the program, with the names of its variables, its structs and their fields: a line for each
/// variable that is initialised, and one for each cell. Behind the program's variables the store may have two
/// temporaries of each kind, which are named `$0` and `$1`. Err is want of memory.
pub fn print_store(alloc: Global, store: &Store, program: &Typed) -> Mem<Text>
    requires { IsStoreOf program.now store.now }
    ensures { IfOk result (λ text. text ≡ spec.store_text program.now store.now) }
{
    let mut text = Text::new(alloc);
    text.put(b"store\n")?;
    put_values(&mut text, program, store.vars.as_slice())?;
    put_datum_lines(&mut text, program, store.data_vars.as_slice())?;
    put_cells(
        &mut text,
        program.shapes.structs.as_slice(),
        store.cells.as_slice(),
    )?;
    text.put(b"end\n")?;
    Ok(text)
}
