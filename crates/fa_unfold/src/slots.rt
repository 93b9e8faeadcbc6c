// Slots of cells, with the states of their children, taken apart and put together.

ghost use Rattle.std.specs.Prelude.{◌≡◌, ◌∷◌, map, IfOk};
ghost use Rattle.ta_core.specs.Joined.{shift};
ghost use Rattle.fa_core.specs.Filled.{gives_in_of, least, least_of};
ghost use Rattle.fa_unfold.specs.Slots.{joined, moved_place, place_key, put_in, rule_places, slot_key, state_places};
ghost use Rattle.fa_unfold.specs.Slots.{without};

use fa_core::faces::BoxFace;
use fa_split::{one_root, slots_of};
use fore_base::list::{Copies, List};
use fore_base::memory::Mem;
use std::alloc::{AllocError, Global};
use ta_core::auto::Rule;
use ta_core::symbol::Slot;

/// The slots of the rule, each with the state of its child, if it has one. Err is want of memory.
pub fn rule_places(alloc: Global, rule: &Rule) -> Mem<List<(Slot, List<u32>)>>
    ensures { IfOk result (λ made. made ≡ rule_places rule.now) }
{
    state_places(alloc, slots_of(&rule.symbol), rule.children.as_slice())
}

fn state_places(alloc: Global, slots: &[Slot], states: &[u32]) -> Mem<List<(Slot, List<u32>)>>
    ensures { IfOk result (λ made. made ≡ state_places slots.now states.now) }
{
    let mut made = List::new(alloc);
    let mut place: usize = 0;
    for slot in slots {
        match slot {
            Slot::Hook(_) => made.push((*slot, List::new(alloc)))?,
            Slot::Field(_) | Slot::Link(_) => {
                if place >= states.len() {
                    return Ok(made);
                }
                let child = one_root(alloc, states[place])?;
                made.push((*slot, child))?;
                place += 1;
            }
        }
    }
    Ok(made)
}

/// The places with the number added to their states. Err is want of memory, also where states do not fit 32 bits.
pub fn moved_places(
    alloc: Global,
    places: &[(Slot, List<u32>)],
    by: u32,
) -> Mem<List<(Slot, List<u32>)>>
    ensures { IfOk result (λ made. made ≡ map (moved_place by) places.now) }
{
    let mut made = List::new(alloc);
    for place in places {
        let states = moved_states(alloc, place.1.as_slice(), by)?;
        made.push((place.0, states))?;
    }
    Ok(made)
}

fn moved_states(alloc: Global, states: &[u32], by: u32) -> Mem<List<u32>>
    ensures { IfOk result (λ made. made ≡ map (shift by) states.now) }
{
    let mut made = List::new(alloc);
    for state in states {
        let more = moved_state(*state, by)?;
        made.push(more)?;
    }
    Ok(made)
}

fn moved_state(state: u32, by: u32) -> Mem<u32>
    ensures { IfOk result (λ more. more ≡ shift by state) }
{
    match state.checked_add(by) {
        Some(more) => Ok(more),
        None => Err(AllocError),
    }
}

/// The least field that the slot covers; 0 where it covers none.
fn slot_key(boxes: &[BoxFace], slot: Slot) -> u32
    ensures { result ≡ slot_key boxes.now slot }
{
    match slot {
        Slot::Field(field) => field,
        Slot::Link(number) | Slot::Hook(number) => box_key(boxes, number),
    }
}

fn box_key(boxes: &[BoxFace], number: u32) -> u32
    ensures { result ≡ least (gives_in_of boxes.now number) }
{
    match boxes.get(number as usize) {
        Some(face) => least(face.gives_in.as_slice()),
        None => 0,
    }
}

fn least(fields: &[u32]) -> u32
    ensures { result ≡ least fields.now }
{
    match fields.split_first() {
        Some((first, rest)) => least_of(*first, rest),
        None => 0,
    }
}

fn least_of(first: u32, others: &[u32]) -> u32
    ensures { result ≡ least_of first others.now }
{
    match others.split_first() {
        Some((other, rest)) if *other < first => least_of(*other, rest),
        Some((_other, rest)) => least_of(first, rest),
        None => first,
    }
}

/// The places, with others put in, in the order of the least field that each covers. Err is want of memory.
pub fn joined(
    alloc: Global,
    boxes: &[BoxFace],
    places: &[(Slot, List<u32>)],
    more: &[(Slot, List<u32>)],
) -> Mem<List<(Slot, List<u32>)>>
    ensures { IfOk result (λ made. made ≡ joined (place_key boxes.now) places.now more.now) }
{
    match more.split_first() {
        None => copied_places(alloc, places),
        Some((first, rest)) => {
            let others = joined(alloc, boxes, places, rest)?;
            put_in(alloc, boxes, first, others.as_slice())
        }
    }
}

/// The place before the first whose key is not less.
fn put_in(
    alloc: Global,
    boxes: &[BoxFace],
    place: &(Slot, List<u32>),
    places: &[(Slot, List<u32>)],
) -> Mem<List<(Slot, List<u32>)>>
    ensures { IfOk result (λ made. made ≡ put_in (place_key boxes.now) place.now places.now) }
{
    match places.split_first() {
        None => with_first(alloc, place, places),
        Some((first, rest)) => {
            if slot_key(boxes, place.0) <= slot_key(boxes, first.0) {
                with_first(alloc, place, places)
            } else {
                let others = put_in(alloc, boxes, place, rest)?;
                with_first(alloc, first, others.as_slice())
            }
        }
    }
}

fn with_first(
    alloc: Global,
    first: &(Slot, List<u32>),
    rest: &[(Slot, List<u32>)],
) -> Mem<List<(Slot, List<u32>)>>
    ensures { IfOk result (λ made. made ≡ first.now ∷ rest.now) }
{
    let mut made = List::new(alloc);
    made.push(copied_place(alloc, first)?)?;
    let others = copied_places(alloc, rest)?;
    made.append(others)?;
    Ok(made)
}

fn copied_places(alloc: Global, places: &[(Slot, List<u32>)]) -> Mem<List<(Slot, List<u32>)>>
    ensures { IfOk result (λ made. made ≡ places.now) }
{
    let mut made = List::new(alloc);
    for place in places {
        let one = copied_place(alloc, place)?;
        made.push(one)?;
    }
    Ok(made)
}

fn copied_place(alloc: Global, place: &(Slot, List<u32>)) -> Mem<(Slot, List<u32>)>
    ensures { IfOk result (λ made. made ≡ place.now) }
{
    let states = place.1.copy(alloc)?;
    Ok((place.0, states))
}

/// The places but the one at this place. Err is want of memory.
pub fn without(
    alloc: Global,
    places: &[(Slot, List<u32>)],
    place: usize,
) -> Mem<List<(Slot, List<u32>)>>
    ensures { IfOk result (λ made. made ≡ without place places.now) }
{
    match places.split_first() {
        None => Ok(List::new(alloc)),
        Some((first, rest)) => {
            if place == 0 {
                copied_places(alloc, rest)
            } else {
                let others = without(alloc, rest, place - 1)?;
                with_first(alloc, first, others.as_slice())
            }
        }
    }
}
