//! The edges that leave a location of a control graph.

ghost use Rattle.std.specs.Prelude.{◌≡◌, ◌≤◌, ◌<◌, ◌+◌, ◌^◌, ℕ, IfOk};
ghost use Rattle.fore_base.specs.declared.store.Store.{Store as StoreOf};
ghost use Rattle.c_types.specs.declared.outcome.Outcome.{Outcome as Out};
ghost use Rattle.c_cfg.specs.Graphs.{has_choice};
ghost use Rattle.c_cfg.specs.GraphRuns.{out_of, is_taken_on, first_pass};
ghost use Rattle.c_walks.specs.inner.Outgoing.{asked, gone_to};

use crate::edge_step::{Went, take_edge};
use c_cfg::graph::Edge;
use c_heap::heap::Heap;
use c_heap::spares::Rooms;
use fore_base::fault::Fault;
use fore_base::memory::Mem;
use fore_base::shape::Shape;
use std::alloc::Global;

/// What the edges of a location lead to.
#[derive(Clone, Copy)]
pub enum Gone {
    /// To this location.
    To(u32),
    /// Into a fault, on an edge of this line.
    Faulty { kind: Fault, line: u32 },
    /// To the end of the run.
    Over,
    /// Nowhere.
    Stuck,
}

fn has_choice(choice: Option<u8>) -> bool
    ensures { result ≡ has_choice choice }
{
    choice.is_some()
}

/// Whether the edges of a location need a choice; None where there is no edge.
pub fn needs_choice(edges: &[Edge], location: u32) -> Option<bool>
    ensures { result ≡ asked (out_of edges.now location) }
{
    for edge in edges {
        if edge.from == location {
            return Some(has_choice(edge.choice));
        }
    }
    None
}

fn is_taken_on(choice: u8, own: Option<u8>) -> bool
    ensures { result ≡ is_taken_on choice own }
{
    match own {
        None => true,
        Some(own) => own == choice,
    }
}

/// Takes the first edge of a location that is taken on a choice and goes somewhere.
pub fn take_first(
    alloc: Global,
    shapes: &[Shape],
    heap: &mut Heap,
    rooms: &mut Rooms,
    edges: &[Edge],
    location: u32,
    choice: u8,
) -> Mem<Gone>
    requires below { heap.old.next + 1 < 2 ^ 64 }
    ensures gone { IfOk result (λ gone. (next : ℕ → StoreOf → Out) (step : ℕ)
        → first_pass shapes.now (out_of edges.now location) choice next step heap.old
        ≡ gone_to gone step next heap.new) }
    ensures next { heap.new.next ≤ heap.old.next + 1 }
{
    for edge in edges {
        if edge.from == location && is_taken_on(choice, edge.choice) {
            match take_edge(alloc, shapes, heap, rooms, edge)? {
                Went::On => return Ok(Gone::To(edge.to)),
                Went::Faults(kind) => {
                    return Ok(Gone::Faulty {
                        kind,
                        line: edge.line,
                    });
                }
                Went::Halts => return Ok(Gone::Over),
                Went::Stays => {}
            }
        }
    }
    Ok(Gone::Stuck)
}
