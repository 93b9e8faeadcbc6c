// Symbols from the names of their structs, fields and boxes.
ghost use Rattle.std.specs.Prelude.{◌≡◌, IfOk, map};
ghost use Rattle.fa_named.specs.Insides as spec;

use crate::named::Known;
use crate::places::place;
use fa_lines::line::{DatumText, SlotText, Term};
use fore_base::list::List;
use fore_base::memory::Mem;
use fore_base::store::Datum;
use fore_base::text::Text;
use std::alloc::Global;
use ta_core::symbol::{Slot, Symbol};

fn slot_of(pointers: &[Text], boxes: &[Text], slot: &SlotText) -> Mem<Slot>
    ensures { IfOk result (λ s. s ≡ spec.slot_of pointers.now boxes.now slot.now) }
{
    match slot {
        SlotText::Field(name, _) => Ok(Slot::Field(place(pointers, name)?)),
        SlotText::Link(name, _) => Ok(Slot::Link(place(boxes, name)?)),
        SlotText::Hook(name) => Ok(Slot::Hook(place(boxes, name)?)),
    }
}

fn slots_of(alloc: Global, pointers: &[Text], boxes: &[Text], slots: &[SlotText]) -> Mem<List<Slot>>
    ensures { IfOk result (λ made. made ≡ map (spec.slot_of pointers.now boxes.now) slots.now) }
{
    let mut made = List::new(alloc);
    for slot in slots {
        let next = slot_of(pointers, boxes, slot)?;
        made.push(next)?;
    }
    Ok(made)
}

fn datums_of(alloc: Global, items: &[DatumText]) -> Mem<List<Datum>>
    ensures { IfOk result (λ made. made ≡ map (λ d. d.datum) items.now) }
{
    let mut made = List::new(alloc);
    for item in items {
        made.push(item.datum)?;
    }
    Ok(made)
}

fn cell_of(
    alloc: Global,
    known: &Known,
    boxes: &[Text],
    shape: &Text,
    items: &List<DatumText>,
    slots: &List<SlotText>,
) -> Mem<Symbol>
    ensures { IfOk result (λ s. s ≡ spec.symbol_of known.now boxes.now (Term.Cell shape.now items.now slots.now)) }
{
    let number = place(known.names.as_slice(), shape)?;
    let datums = datums_of(alloc, items.as_slice())?;
    let slots = match known.fields.get(number as usize) {
        Some(fields) => slots_of(alloc, fields.pointers.as_slice(), boxes, slots.as_slice())?,
        None => slots_of(alloc, List::new(alloc).as_slice(), boxes, slots.as_slice())?,
    };
    Ok(Symbol::Cell {
        shape: number,
        datums,
        slots,
    })
}

/// The symbol of a term.
pub fn symbol_of(alloc: Global, known: &Known, boxes: &[Text], term: &Term) -> Mem<Symbol>
    ensures { IfOk result (λ s. s ≡ spec.symbol_of known.now boxes.now term.now) }
{
    match term {
        Term::Null => Ok(Symbol::Null),
        Term::Uninit => Ok(Symbol::Uninit),
        Term::Dangling => Ok(Symbol::Dangling),
        Term::Ref(root) => Ok(Symbol::Ref(*root)),
        Term::Cell {
            shape,
            data: items,
            slots,
        } => cell_of(alloc, known, boxes, shape, items, slots),
    }
}
