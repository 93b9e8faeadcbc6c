// Whether each field of the cells of rules is given exactly once.

ghost use Rattle.std.specs.Prelude.{◌≡◌, ◌↔◌, ◌++◌, flat_map, IsTrue, IfOk};
ghost use Rattle.fore_base.specs.Lists.{Every};
ghost use Rattle.fa_core.specs.Filled.{covers, fields_of};
ghost use Rattle.fa_core.specs.Rearranged.{Rearranged, often};
ghost use Rattle.fa_core.specs.Cells.{edges};
ghost use Rattle.fa_core.specs.Ways.{given_by, gives_out_of};
ghost use Rattle.fa_filling.specs.Ruled.{OnceBy, StateOnce, RootOnce, EdgeOnce, IsOnceBelow};

use crate::covering::covered;
use crate::fields::fields_of;
use crate::parts::is_one_of;
use fa_core::cells::edges;
use fa_core::faces::{BoxFace, Face};
use fore_base::list::List;
use fore_base::memory::Mem;
use std::alloc::Global;
use ta_core::auto::Rule;
use ta_core::symbol::{Slot, Symbol};

/// Whether the cells at the roots have each field once, where the fields `above` are given there.
pub fn are_roots_once(
    alloc: Global,
    face: &Face,
    above: &[u32],
    roots: &[u32],
    rules: &[Rule],
) -> Mem<bool>
    ensures { IfOk result (λ yes. IsTrue yes ↔ Every (RootOnce face.now above.now roots.now) rules.now) }
{
    for rule in rules {
        if is_one_of(rule.state, roots) {
            if !is_once(alloc, face, above, &rule.symbol)? {
                return Ok(false);
            }
        }
    }
    Ok(true)
}

/// Whether the cells below the edges of all rules have each field once.
pub fn are_edges_once(alloc: Global, face: &Face, rules: &[Rule]) -> Mem<bool>
    ensures { IfOk result (λ yes. IsTrue yes ↔ Every (IsOnceBelow face.now rules.now) rules.now) }
{
    for rule in rules {
        if !is_once_below(alloc, face, rules, rule)? {
            return Ok(false);
        }
    }
    Ok(true)
}

fn is_once_below(alloc: Global, face: &Face, rules: &[Rule], rule: &Rule) -> Mem<bool>
    ensures { IfOk result (λ yes. IsTrue yes ↔ IsOnceBelow face.now rules.now rule.now) }
{
    match &rule.symbol {
        Symbol::Cell { slots, .. } => {
            are_slots_once(
                alloc,
                face,
                rules,
                slots.as_slice(),
                rule.children.as_slice(),
            )
        }
        _ => Ok(true),
    }
}

/// Whether the cells below these slots and children have each field once.
fn are_slots_once(
    alloc: Global,
    face: &Face,
    rules: &[Rule],
    slots: &[Slot],
    children: &[u32],
) -> Mem<bool>
    ensures { IfOk result (λ yes. IsTrue yes ↔ Every (EdgeOnce face.now rules.now) (edges slots.now children.now)) }
{
    let edges = edges(alloc, slots, children)?;
    are_each_once(alloc, face, rules, edges.as_slice())
}

fn are_each_once(alloc: Global, face: &Face, rules: &[Rule], edges: &[(Slot, u32)]) -> Mem<bool>
    ensures { IfOk result (λ yes. IsTrue yes ↔ Every (EdgeOnce face.now rules.now) edges.now) }
{
    for edge in edges {
        if !is_edge_once(alloc, face, rules, *edge)? {
            return Ok(false);
        }
    }
    Ok(true)
}

/// Whether the cells below the edge have each field once, with what the edge gives them.
fn is_edge_once(alloc: Global, face: &Face, rules: &[Rule], edge: (Slot, u32)) -> Mem<bool>
    ensures { IfOk result (λ yes. IsTrue yes ↔ EdgeOnce face.now rules.now edge) }
{
    let above = given_by(face.boxes.as_slice(), edge.0);
    is_state_once(alloc, face, above, edge.1, rules)
}

/// Whether the cells of this state have each field once, where the fields `above` are given to them.
fn is_state_once(alloc: Global, face: &Face, above: &[u32], state: u32, rules: &[Rule]) -> Mem<bool>
    ensures { IfOk result (λ yes. IsTrue yes ↔ Every (StateOnce face.now above.now state) rules.now) }
{
    for rule in rules {
        if rule.state == state {
            if !is_once(alloc, face, above, &rule.symbol)? {
                return Ok(false);
            }
        }
    }
    Ok(true)
}

/// The fields that the edge gives to the cell at its end.
pub fn given_by<'a>(boxes: &'a [BoxFace], slot: Slot) -> &'a [u32]
    ensures { result.now ≡ given_by boxes.entry.now slot }
{
    match slot {
        Slot::Link(number) => gives_out(boxes, number),
        _ => &[],
    }
}

fn gives_out<'a>(boxes: &'a [BoxFace], number: u32) -> &'a [u32]
    ensures { result.now ≡ gives_out_of boxes.entry.now number }
{
    match boxes.get(number as usize) {
        Some(face) => face.gives_out.as_slice(),
        None => &[],
    }
}

/// Whether a cell with the symbol has each field once, where the fields `above` are given to it.
fn is_once(alloc: Global, face: &Face, above: &[u32], symbol: &Symbol) -> Mem<bool>
    ensures { IfOk result (λ yes. IsTrue yes ↔ OnceBy face.now above.now symbol.now) }
{
    match symbol {
        Symbol::Cell { shape, slots, .. } => {
            is_given_once(alloc, face, *shape, slots.as_slice(), above)
        }
        _ => Ok(true),
    }
}

/// Whether the slots and what is given from above cover each pointer field of the struct once.
fn is_given_once(alloc: Global, face: &Face, shape: u32, slots: &[Slot], above: &[u32]) -> Mem<bool>
    ensures { IfOk result (λ yes. IsTrue yes
        ↔ Rearranged (fields_of face.now.shapes.structs shape)
        (flat_map (covers face.now.boxes) slots.now ++ above.now)) }
{
    let mut given = covered(alloc, face.boxes.as_slice(), slots)?;
    given.append(List::from_slice(alloc, above)?)?;
    let fields = fields_of(alloc, face.shapes.structs.as_slice(), shape)?;
    Ok(are_rearranged(fields.as_slice(), given.as_slice()))
}

/// Whether each number stands in both lists as often.
pub fn are_rearranged(left: &[u32], right: &[u32]) -> bool
    ensures { IsTrue result ↔ Rearranged left.now right.now }
{
    if left.len() != right.len() {
        return false;
    }
    are_as_often(left, left, right)
}

/// Whether each of the numbers stands in both lists as often.
fn are_as_often(numbers: &[u32], left: &[u32], right: &[u32]) -> bool
    ensures { IsTrue result ↔ Every (λ n. often n left.now ≡ often n right.now) numbers.now }
{
    for number in numbers {
        if often(*number, left) != often(*number, right) {
            return false;
        }
    }
    true
}

pub fn often(number: u32, numbers: &[u32]) -> usize
    ensures { result ≡ often number numbers.now }
{
    let mut count: usize = 0;
    for other in numbers {
        if number == *other {
            count += 1;
        }
    }
    count
}
