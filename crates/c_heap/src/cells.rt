ghost use Rattle.std.specs.Prelude.{◌≡◌, map};
ghost use Rattle.fore_base.specs.Stores.{field_in, with_field, datum_in, with_datum, dangle_in, without};
ghost use Rattle.c_heap.specs.Rising.{CellsRiseFrom};

use crate::search::position_of;
use crate::values::dangle_all;
use fore_base::list::List;
use fore_base::store::{CellRec, Datum, Value};

/// A field of the cell of a number.
pub fn field_of(cells: &[CellRec], number: u64, field: u32) -> Value
    requires { CellsRiseFrom 0 cells.now }
    ensures { result ≡ field_in cells.now number field }
{
    match position_of(cells, number) {
        Some(at) => cells[at].fields.get_or(field as usize, Value::Uninit),
        None => Value::Uninit,
    }
}

/// Writes a field of the cell of a number.
pub fn set_field(cells: &mut List<CellRec>, number: u64, field: u32, value: Value)
    requires { CellsRiseFrom 0 cells.old }
    ensures { cells.new ≡ with_field cells.old number field value }
{
    if let Some(at) = position_of(cells.as_slice(), number) {
        let cell = cells.at_mut(at);
        cell.fields.set_within(field as usize, value);
    }
}

/// A data field of the cell of a number.
pub fn datum_field_of(cells: &[CellRec], number: u64, field: u32) -> Datum
    requires { CellsRiseFrom 0 cells.now }
    ensures { result ≡ datum_in cells.now number field }
{
    match position_of(cells, number) {
        Some(at) => cells[at].datums.get_or(field as usize, Datum::Undefined),
        None => Datum::Undefined,
    }
}

/// Writes a data field of the cell of a number.
pub fn set_datum_field(cells: &mut List<CellRec>, number: u64, field: u32, datum: Datum)
    requires { CellsRiseFrom 0 cells.old }
    ensures { cells.new ≡ with_datum cells.old number field datum }
{
    if let Some(at) = position_of(cells.as_slice(), number) {
        let cell = cells.at_mut(at);
        cell.datums.set_within(field as usize, datum);
    }
}

/// Ends the cell of a number, and lets what names it in other cells dangle.
pub fn end_cell(cells: &mut List<CellRec>, number: u64)
    requires { CellsRiseFrom 0 cells.old }
    ensures { cells.new ≡ without number cells.old }
{
    if let Some(at) = position_of(cells.as_slice(), number) {
        let _ended = cells.remove(at);
    }
    dangle_cells(cells, number)
}

fn dangle_cells(cells: &mut List<CellRec>, number: u64)
    ensures { cells.new ≡ map (dangle_in number) cells.old }
{
    for i in 0..cells.len() {
        let cell = cells.at_mut(i);
        dangle_all(&mut cell.fields, number);
    }
}
