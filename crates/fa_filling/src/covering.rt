// The fields that slots cover at their own cell, and the order of slots.

ghost use Rattle.std.specs.Prelude.{◌≡◌, ◌↔◌, map, flat_map, IsTrue, IfOk};
ghost use Rattle.fore_base.specs.Lists.{Every};
ghost use Rattle.fa_core.specs.Filled.{covers, gives_in_of, least_of, least, HasField, IsInOrder};
ghost use Rattle.fa_core.specs.Rearranged.{RisesFrom, IsRising};

use fa_core::faces::BoxFace;
use fore_base::list::{Copies, List};
use fore_base::memory::Mem;
use std::alloc::Global;
use ta_core::symbol::Slot;

/// Whether the slots stand in order of the least field that each covers.
pub fn is_in_order(alloc: Global, boxes: &[BoxFace], slots: &[Slot]) -> Mem<bool>
    ensures { IfOk result (λ yes. IsTrue yes ↔ IsInOrder boxes.now slots.now) }
{
    if !cover_fields(alloc, boxes, slots)? {
        return Ok(false);
    }
    let leasts = leasts(alloc, boxes, slots)?;
    Ok(are_rising(leasts.as_slice()))
}

/// Whether each slot covers some field.
fn cover_fields(alloc: Global, boxes: &[BoxFace], slots: &[Slot]) -> Mem<bool>
    ensures { IfOk result (λ yes. IsTrue yes ↔ Every (λ x. HasField (covers boxes.now x)) slots.now) }
{
    for slot in slots {
        let fields = covers(alloc, boxes, *slot)?;
        if !has_field(fields.as_slice()) {
            return Ok(false);
        }
    }
    Ok(true)
}

/// Whether there is a field.
pub fn has_field(fields: &[u32]) -> bool
    ensures { IsTrue result ↔ HasField fields.now }
{
    fields.split_first().is_some()
}

/// For each slot the least field that it covers.
fn leasts(alloc: Global, boxes: &[BoxFace], slots: &[Slot]) -> Mem<List<u32>>
    ensures { IfOk result (λ made. made ≡ map (λ x. least (covers boxes.now x)) slots.now) }
{
    let mut made = List::new(alloc);
    for slot in slots {
        let fields = covers(alloc, boxes, *slot)?;
        made.push(least(fields.as_slice()))?;
    }
    Ok(made)
}

/// The fields that the slots cover. Err is want of memory.
pub fn covered(alloc: Global, boxes: &[BoxFace], slots: &[Slot]) -> Mem<List<u32>>
    ensures { IfOk result (λ made. made ≡ flat_map (covers boxes.now) slots.now) }
{
    let mut made = List::new(alloc);
    for slot in slots {
        let fields = covers(alloc, boxes, *slot)?;
        made.append(fields)?;
    }
    Ok(made)
}

/// The fields that the slot covers at its own cell.
fn covers(alloc: Global, boxes: &[BoxFace], slot: Slot) -> Mem<List<u32>>
    ensures { IfOk result (λ fields. fields ≡ covers boxes.now slot) }
{
    match slot {
        Slot::Field(field) => {
            let mut fields = List::new(alloc);
            fields.push(field)?;
            Ok(fields)
        }
        Slot::Link(number) | Slot::Hook(number) => gives_in(alloc, boxes, number),
    }
}

fn gives_in(alloc: Global, boxes: &[BoxFace], number: u32) -> Mem<List<u32>>
    ensures { IfOk result (λ fields. fields ≡ gives_in_of boxes.now number) }
{
    match boxes.get(number as usize) {
        Some(face) => face.gives_in.copy(alloc),
        None => Ok(List::new(alloc)),
    }
}

/// The least of the numbers, 0 where there is none.
fn least(numbers: &[u32]) -> u32
    ensures { result ≡ least numbers.now }
{
    match numbers.split_first() {
        Some((first, rest)) => least_of(*first, rest),
        None => 0,
    }
}

/// The least of a number and others.
fn least_of(first: u32, others: &[u32]) -> u32
    ensures { result ≡ least_of first others.now }
{
    let mut least = first;
    for other in others {
        if *other < least {
            least = *other;
        }
    }
    least
}

/// Whether each number is below the next.
fn are_rising(numbers: &[u32]) -> bool
    ensures { IsTrue result ↔ IsRising numbers.now }
{
    match numbers.split_first() {
        Some((first, rest)) => are_rising_from(*first, rest),
        None => true,
    }
}

fn are_rising_from(first: u32, rest: &[u32]) -> bool
    ensures { IsTrue result ↔ RisesFrom first rest.now }
{
    let mut last = first;
    for number in rest {
        if last >= *number {
            return false;
        }
        last = *number;
    }
    true
}
