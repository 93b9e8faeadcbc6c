// Cells under way: each has its number, by its place, and the pointer fields that are known so far.

ghost use Rattle.std.specs.Prelude.{◌≡◌, ◌++◌, ◌∷◌, [], IfOk, suc, length, map};
ghost use Rattle.fa_sample.specs.inner.Walk.{reserved};
ghost use Rattle.fa_sample.specs.inner.Written.{put_in, put_at, put_field, cell_done, cells_done};

use fore_base::list::{Copies, List};
use fore_base::memory::Mem;
use fore_base::store::{CellRec, Datum, Value};
use std::alloc::{AllocError, Global};
use ta_core::symbol::Symbol;
use ta_core::tree::Tree;

/// A pointer field of a cell, by its number, and its value.
#[derive(Clone, Copy)]
pub struct FieldValue {
    pub field: u32,
    pub value: Value,
}

/// A cell under way: its struct, its data, and the pointer fields that are known, in rising order.
#[derive(Drop)]
pub struct Draft {
    pub shape: u32,
    pub datums: List<Datum>,
    pub fields: List<FieldValue>,
}

/// The number of the next cell: cells are numbered from 1. Err is want of memory.
pub fn next_number(drafts: &List<Draft>) -> Mem<u64>
    ensures { IfOk result (λ number. number ≡ suc (length drafts.now)) }
{
    let count = drafts.len() as u64;
    let number = count.checked_add(1).ok_or(AllocError)?;
    Ok(number)
}

/// Adds the cell at the top of a tree, where there is one, without its pointer fields.
pub fn reserve(alloc: Global, tree: &Tree, drafts: &mut List<Draft>) -> Mem<()>
    ensures { IfOk result (λ _. drafts.new ≡ reserved tree.now drafts.old) }
{
    match &tree.symbol {
        Symbol::Null | Symbol::Uninit | Symbol::Dangling | Symbol::Ref(_) => Ok(()),
        Symbol::Cell { shape, datums, .. } => {
            let datums = datums.copy(alloc)?;
            add_draft(alloc, *shape, datums, drafts)
        }
    }
}

/// Adds a cell without pointer fields.
pub fn add_draft(
    alloc: Global,
    shape: u32,
    datums: List<Datum>,
    drafts: &mut List<Draft>,
) -> Mem<()>
    ensures { IfOk result
        (λ _. drafts.new ≡ drafts.old ++ record { shape = shape; datums = datums; fields = [] } ∷ []) }
{
    let fields = List::new(alloc);
    drafts.push(Draft {
        shape,
        datums,
        fields,
    })?;
    Ok(())
}

/// Adds a pointer field to the cell of this number, where there is one.
pub fn add_field(alloc: Global, cell: u64, field: FieldValue, drafts: &mut List<Draft>) -> Mem<()>
    ensures { IfOk result (λ _. drafts.new ≡ put_field cell field drafts.old) }
{
    match cell.checked_sub(1) {
        None => Ok(()),
        Some(at) => add_field_at(alloc, at as usize, field, drafts),
    }
}

fn add_field_at(alloc: Global, at: usize, field: FieldValue, drafts: &mut List<Draft>) -> Mem<()>
    ensures { IfOk result (λ _. drafts.new ≡ put_at at field drafts.old) }
{
    if at >= drafts.len() {
        return Ok(());
    }
    let draft = drafts.at_mut(at);
    draft.fields = with_field(alloc, draft.fields.as_slice(), field)?;
    Ok(())
}

/// The fields with one more, before the first whose number is not less.
fn with_field(alloc: Global, fields: &[FieldValue], new: FieldValue) -> Mem<List<FieldValue>>
    ensures { IfOk result (λ all. all ≡ put_in new fields.now) }
{
    let mut all = List::new(alloc);
    let mut is_put = false;
    for field in fields {
        if !is_put && new.field <= field.field {
            all.push(new)?;
            is_put = true;
        }
        all.push(*field)?;
    }
    if !is_put {
        all.push(new)?;
    }
    Ok(all)
}

/// The cells, numbered from 1.
pub fn finish(alloc: Global, drafts: &[Draft]) -> Mem<List<CellRec>>
    ensures { IfOk result (λ cells. cells ≡ cells_done 1 drafts.now) }
{
    let mut cells = List::new(alloc);
    let mut number = 1;
    for draft in drafts {
        let cell = finish_one(alloc, number, draft)?;
        cells.push(cell)?;
        number = number.checked_add(1).ok_or(AllocError)?;
    }
    Ok(cells)
}

fn finish_one(alloc: Global, number: u64, draft: &Draft) -> Mem<CellRec>
    ensures { IfOk result (λ cell. cell ≡ cell_done number draft.now) }
{
    let mut fields = List::new(alloc);
    for field in draft.fields.as_slice() {
        fields.push(field.value)?;
    }
    Ok(CellRec {
        number,
        shape: draft.shape,
        datums: draft.datums.copy(alloc)?,
        fields,
    })
}
