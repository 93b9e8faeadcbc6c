// The states whose leaves are told from their cells: a box edge makes different marks of a leaf and a cell of one
// signature where its box leads back or gives its output something.

ghost use Rattle.std.specs.Prelude.{◌≡◌, IfOk};
ghost use Rattle.std.specs.Option.{option_copied};
ghost use Rattle.fa_signatures.specs.inner.Telling.{has_some, tells, tells_by, told_below, told_ends, told_states};

use fa_core::cells::edges;
use fa_core::faces::BoxFace;
use fore_base::list::List;
use fore_base::memory::Mem;
use std::alloc::Global;
use ta_core::auto::Rule;
use ta_core::symbol::{Slot, Symbol};

/// The states at the ends of such edges. Err is want of memory.
pub fn told_states(alloc: Global, boxes: &[BoxFace], rules: &[Rule]) -> Mem<List<u32>>
    ensures { IfOk result (λ told. told ≡ told_states boxes.now rules.now) }
{
    let mut told = List::new(alloc);
    for rule in rules {
        let more = told_below(alloc, boxes, &rule.symbol, rule.children.as_slice())?;
        told.append(more)?;
    }
    Ok(told)
}

fn told_below(alloc: Global, boxes: &[BoxFace], symbol: &Symbol, children: &[u32]) -> Mem<List<u32>>
    ensures { IfOk result (λ told. told ≡ told_below boxes.now symbol.now children.now) }
{
    match symbol {
        Symbol::Cell { slots, .. } => {
            let edges = edges(alloc, slots.as_slice(), children)?;
            told_ends(alloc, boxes, edges.as_slice())
        }
        _ => Ok(List::new(alloc)),
    }
}

fn told_ends(alloc: Global, boxes: &[BoxFace], edges: &[(Slot, u32)]) -> Mem<List<u32>>
    ensures { IfOk result (λ told. told ≡ told_ends boxes.now edges.now) }
{
    let mut told = List::new(alloc);
    for edge in edges {
        if tells(boxes, edge.0) {
            told.push(edge.1)?;
        }
    }
    Ok(told)
}

/// Whether a leaf and a cell of one signature make different marks at the end of the slot.
fn tells(boxes: &[BoxFace], slot: Slot) -> bool
    ensures { result ≡ tells boxes.now slot }
{
    match slot {
        Slot::Link(number) => tells_by(boxes.get(number as usize)),
        _ => false,
    }
}

/// Whether the box leads back, or gives its output something.
fn tells_by(face: Option<&BoxFace>) -> bool
    ensures { result ≡ tells_by (option_copied face.entry) }
{
    match face {
        Some(face) => face.back || gives_some(face.gives_out.as_slice()),
        None => false,
    }
}

fn gives_some(fields: &[u32]) -> bool
    ensures { result ≡ has_some fields.now }
{
    !fields.is_empty()
}
