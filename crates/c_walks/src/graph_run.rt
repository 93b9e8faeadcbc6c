//! Runs of a control graph on a list of choices.

ghost use Rattle.std.specs.Prelude.{◌≡◌, ◌≤◌, ◌<◌, ◌+◌, ◌-◌, ◌^◌, ℕ, suc, length, IfOk};
ghost use Rattle.c_cfg.specs.GraphRuns.{out_of, first_pass, grun};
ghost use Rattle.fore_base.specs.declared.store.Store.{Store as StoreOf};
ghost use Rattle.c_types.specs.declared.outcome.Outcome.{Outcome as Out};
ghost use Rattle.c_acts.specs.Choices.{or_none};
ghost use Rattle.c_walks.specs.inner.Outgoing.{or_rest, rest_of};

use crate::outgoing::{Gone, needs_choice, take_first};
use c_acts::choices::supply;
use c_cfg::graph::Graph;
use c_heap::heap::Heap;
use c_heap::spares::Rooms;
use c_types::outcome::Outcome;
use fore_base::memory::Mem;
use std::alloc::Global;

/// A run between two edges: its store, where it is, and how many choices were used.
#[derive(Drop)]
struct Walk {
    heap: Heap,
    rooms: Rooms,
    location: u32,
    used: usize,
}

/// The run of a control graph on these choices, over at most `limit` edges. Steps are counted by edges.
///
/// # Errors
///
/// Want of memory.
pub fn graph_run(alloc: Global, graph: &Graph, choices: &[u8], limit: u64) -> Mem<Outcome>
    requires below { limit < 2 ^ 64 - 1 }
    ensures { IfOk result (λ outcome. outcome ≡ grun graph.now choices.now limit) }
{
    let heap = Heap::empty(alloc, graph.ptrs as usize, graph.datums as usize)?;
    let mut walk = Walk {
        heap,
        rooms: Rooms::new(alloc),
        location: 0,
        used: 0,
    };
    walk.go_all(alloc, graph, choices, limit)
}

/// The choice, or 0 where there is none.
fn or_none(choice: Option<u8>) -> u8
    ensures { result ≡ or_none choice }
{
    match choice {
        None => 0,
        Some(choice) => choice,
    }
}

impl Walk {
    /// Goes on from the entry, and says how the run comes out.
    fn go_all(&mut self, alloc: Global, graph: &Graph, choices: &[u8], limit: u64) -> Mem<Outcome>
        requires below { limit < 2 ^ 64 - 1 }
        requires begun { grun graph.now choices.now limit
            ≡ rest_of graph.now limit 0 self.old.location self.old.heap choices.now self.old.used }
        requires next { self.old.heap.next ≡ 1 }
        requires used { self.old.used ≤ length choices.now }
        ensures { IfOk result (λ outcome. outcome ≡ grun graph.now choices.now limit) }
    {
        for step in 0..limit {
            let outcome = self.go_on(alloc, graph, choices, step)?;
            match outcome {
                None => {}
                Some(outcome) => return Ok(outcome),
            }
        }
        match needs_choice(graph.edges.as_slice(), self.location) {
            None => Ok(Outcome::Ended { step: limit }),
            Some(_) => Ok(Outcome::StillRunning),
        }
    }

    /// Goes on by one edge, or says how the run comes out.
    fn go_on(
        &mut self,
        alloc: Global,
        graph: &Graph,
        choices: &[u8],
        step: u64,
    ) -> Mem<Option<Outcome>>
        requires below { self.old.heap.next + 1 < 2 ^ 64 }
        requires step { step + 1 < 2 ^ 64 }
        requires used { self.old.used ≤ length choices.now }
        ensures goes { IfOk result (λ outcome. (left : ℕ)
            → rest_of graph.now (suc left) step self.old.location self.old.heap choices.now self.old.used
            ≡ or_rest outcome
            (rest_of graph.now left (step + 1) self.new.location self.new.heap choices.now self.new.used)) }
        ensures next { self.new.heap.next ≤ self.old.heap.next + 1 }
        ensures used { self.new.used ≤ length choices.now }
    {
        let edges = graph.edges.as_slice();
        let Some(needed) = needs_choice(edges, self.location) else {
            return Ok(Some(Outcome::Ended { step }));
        };
        match supply(needed, choices, &mut self.used, step + 1) {
            Err(outcome) => Ok(Some(outcome)),
            Ok(choice) => self.leave(alloc, graph, or_none(choice), step + 1),
        }
    }

    /// Leaves the location on a choice; `step` is the number of the edge that is taken.
    fn leave(&mut self, alloc: Global, graph: &Graph, choice: u8, step: u64) -> Mem<Option<Outcome>>
        requires below { self.old.heap.next + 1 < 2 ^ 64 }
        ensures goes { IfOk result (λ outcome. (next : ℕ → StoreOf → Out)
            → first_pass graph.now.shapes.structs (out_of graph.now.edges self.old.location) choice next step
            self.old.heap ≡ or_rest outcome (next self.new.location self.new.heap)) }
        ensures next { self.new.heap.next ≤ self.old.heap.next + 1 }
        ensures used { self.new.used ≡ self.old.used }
    {
        let shapes = graph.shapes.structs.as_slice();
        let edges = graph.edges.as_slice();
        let gone = take_first(
            alloc,
            shapes,
            &mut self.heap,
            &mut self.rooms,
            edges,
            self.location,
            choice,
        )?;
        Ok(match gone {
            Gone::To(location) => {
                self.location = location;
                None
            }
            Gone::Faulty { kind, line } => Some(Outcome::Fault { kind, line, step }),
            Gone::Over => Some(Outcome::Ended { step }),
            Gone::Stuck => Some(Outcome::StillRunning),
        })
    }
}
