// Cells and leaves.
ghost use Rattle.std.specs.Prelude.{◌≡◌, ◌++◌, true, codes, decimal, map, OnOk};
ghost use Rattle.std.specs.List.{concat};
ghost use Rattle.fa_core.specs.Boxes.{Boxes};
ghost use Rattle.fa_lines.specs.Spelling as spelling;
ghost use Rattle.fa_named.specs.Structs.{field_names};
ghost use Rattle.fa_print.specs.Lines as spec;
ghost use Rattle.fa_print.specs.Names as names;
ghost use Rattle.fa_print.specs.inner.Putting.{comma_before};
ghost use Rattle.ta_core.specs.declared.symbol.Symbol.{Symbol as Sign};

use crate::names::{field_name, fields_at, struct_name};
use crate::slots::{put_comma, put_slots};
use fa_core::table::BoxTable;
use fore_base::memory::Mem;
use fore_base::shape::{FieldDef, Shape};
use fore_base::store::Datum;
use fore_base::text::Text;
use ta_core::symbol::{Slot, Symbol};

fn put_value(text: &mut Text, datum: Datum) -> Mem<()>
    ensures { OnOk result (text.new ≡ text.old ++ spelling.datum_text datum) }
{
    match datum {
        Datum::Undefined => text.put(b"undef"),
        Datum::Known(number) => text.put_number(number as u64),
    }
}

/// A datum behind the name of its field.
fn put_datum(text: &mut Text, name: &[u8], datum: Datum) -> Mem<()>
    ensures { OnOk result (text.new ≡ text.old ++ concat
        (spelling.datum_pieces (record { name = name.now; datum = datum }))) }
{
    text.put(name)?;
    text.put(b"=")?;
    put_value(text, datum)?;
    Ok(())
}

/// The data of a cell, and a comma between two.
fn put_datums(text: &mut Text, fields: &[FieldDef], datums: &[Datum]) -> Mem<()>
    ensures { OnOk result (text.new ≡ text.old ++ concat (spelling.series (map spelling.datum_pieces
        (spec.named_data (field_names true fields.now) 0 datums.now)))) }
{
    for (i, datum) in datums.iter().enumerate() {
        put_comma(text, i)?;
        put_datum(text, field_name(fields, true, i), *datum)?;
    }
    Ok(())
}

/// The data of a cell in brackets, which are left out where there are none.
fn put_data(text: &mut Text, fields: &[FieldDef], datums: &[Datum]) -> Mem<()>
    ensures { OnOk result (text.new ≡ text.old ++ concat
        (spelling.data_pieces (spec.named_data (field_names true fields.now) 0 datums.now))) }
{
    if datums.is_empty() {
        return Ok(());
    }
    text.put(b"[")?;
    put_datums(text, fields, datums)?;
    text.put(b"]")?;
    Ok(())
}

/// The struct of a cell and its data.
pub fn put_struct(text: &mut Text, structs: &[Shape], shape: u32, datums: &[Datum]) -> Mem<()>
    ensures { OnOk result (text.new ≡ text.old ++ (names.struct_name structs.now shape ++ concat
        (spelling.data_pieces (spec.named_data (names.datum_names structs.now shape) 0 datums.now)))) }
{
    text.put(struct_name(structs, shape))?;
    put_data(text, fields_at(structs, shape), datums)?;
    Ok(())
}

/// The struct of a cell of a forest and its data.
fn put_cell_struct(text: &mut Text, table: &BoxTable, shape: u32, datums: &[Datum]) -> Mem<()>
    ensures { OnOk result (text.new ≡ text.old
        ++ (names.struct_name table.now.face.shapes.structs shape ++ concat
        (spelling.data_pieces
        (spec.named_data (names.datum_names table.now.face.shapes.structs shape) 0 datums.now)))) }
{
    put_struct(text, table.face().shapes.structs.as_slice(), shape, datums)?;
    Ok(())
}

/// The slots of a cell of a forest, with the states below them.
fn put_cell_slots(
    text: &mut Text,
    table: &BoxTable,
    shape: u32,
    slots: &[Slot],
    states: &[u32],
) -> Mem<()>
    ensures { OnOk result (text.new ≡ text.old ++ concat (spelling.series (map spelling.slot_pieces
        (spec.named_slots table.now (names.pointer_names table.now.face.shapes.structs shape) slots.now states.now)))) }
{
    let fields = fields_at(table.face().shapes.structs.as_slice(), shape);
    put_slots(text, table, fields, slots, states)?;
    Ok(())
}

fn put_cell(
    text: &mut Text,
    table: &BoxTable,
    shape: u32,
    datums: &[Datum],
    slots: &[Slot],
    states: &[u32],
) -> Mem<()>
    ensures { OnOk result (text.new ≡ text.old
        ++ spec.term_text (spec.named_term table.now (Sign.Cell shape datums.now slots.now) states.now)) }
{
    put_cell_struct(text, table, shape, datums)?;
    text.put(b"(")?;
    put_cell_slots(text, table, shape, slots, states)?;
    text.put(b")")?;
    Ok(())
}

fn put_root(text: &mut Text, root: u32) -> Mem<()>
    ensures { OnOk result (text.new ≡ text.old ++ (codes "ref " ++ decimal root)) }
{
    text.put(b"ref ")?;
    text.put_number(root as u64)?;
    Ok(())
}

/// What stands at a node, with the states below it.
pub fn put_term(text: &mut Text, table: &BoxTable, symbol: &Symbol, states: &[u32]) -> Mem<()>
    ensures { OnOk result (text.new ≡ text.old
        ++ spec.term_text (spec.named_term table.now symbol.now states.now)) }
{
    match symbol {
        Symbol::Null => text.put(b"null"),
        Symbol::Uninit => text.put(b"uninit"),
        Symbol::Dangling => text.put(b"dangling"),
        Symbol::Ref(root) => put_root(text, *root),
        Symbol::Cell {
            shape,
            datums,
            slots,
        } => put_cell(
            text,
            table,
            *shape,
            datums.as_slice(),
            slots.as_slice(),
            states,
        ),
    }
}
