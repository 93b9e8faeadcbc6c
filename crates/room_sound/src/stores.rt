// Stores as texts: parts with ` / ` between.
//
// The first has the variables, as in a forest, but a pointer to a cell is the cell's number. Then comes each cell: its
// number, and between brackets its struct, its data and its pointer fields. The last has the number of the next cell.

use anyhow::Result;
use fore_base::store::{CellRec, Store, Value};
use row_forests::{put_data, put_datums, put_number};
use std::alloc::Global;

pub fn text_of_store(alloc: Global, store: &Store) -> Result<String> {
    let mut text = String::new(alloc);
    if store.vars.is_empty() {
        text.push('-')?;
    }
    put_values(&mut text, store.vars.as_slice())?;
    put_data(&mut text, store.data_vars.as_slice())?;
    put_cells(&mut text, store.cells.as_slice())?;
    write!(text, " / next {}", store.next)?;
    Ok(text)
}

fn put_cells(text: &mut String, cells: &[CellRec]) -> Result<()> {
    for cell in cells {
        put_cell(text, cell)?;
    }
    Ok(())
}

fn put_cell(text: &mut String, cell: &CellRec) -> Result<()> {
    write!(text, " / {}=[{}:", cell.number, cell.shape)?;
    put_datums(text, cell.datums.as_slice())?;
    text.push(':')?;
    put_values(text, cell.fields.as_slice())?;
    text.push(']')?;
    Ok(())
}

fn put_values(text: &mut String, values: &[Value]) -> Result<()> {
    for value in values {
        put_value(text, *value)?;
    }
    Ok(())
}

fn put_value(text: &mut String, value: Value) -> Result<()> {
    match value {
        Value::Null => text.push('n')?,
        Value::Uninit => text.push('u')?,
        Value::Dangling => text.push('d')?,
        Value::Cell(number) => put_number(text, u32::try_from(number)?)?,
    }
    Ok(())
}
