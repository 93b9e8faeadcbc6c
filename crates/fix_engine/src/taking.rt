// The images of a node, taken up edge by edge: a fault, or states, each of which becomes a node unless a node of its
// location covers it.
ghost use Rattle.std.specs.Prelude.{◌≡◌, ◌≤◌, [], length, IfOk};
ghost use Rattle.fore_base.specs.Lists.{Every};
ghost use Rattle.par_kit.specs.Crews.{IsJobs};
ghost use Rattle.fix_successors.specs.Images.{IsImageAt, edge_numbers};
ghost use Rattle.fix_successors.specs.Exits.{Rises};
ghost use Rattle.fix_core.specs.States.{AbstractState};
ghost use Rattle.fix_engine.specs.inner.Taking.{AreDue, AreFirstTaken, IsMid, IsStage, IsTakenEdge, IsTakenNode};
ghost use Rattle.fix_engine.specs.inner.Taking.{all_or_full, child};

use crate::crews::{COVERING_RULES, crew_for, rules_of};
use c_cfg::graph::Edge;
use fix_core::edges::edge_at;
use fix_core::nodes::{NodeHead, Nodes, Placed};
use fix_core::states::State;
use fix_successors::{EdgeImage, Image, Task, copy_bad};
use fore_base::memory::Mem;
use par_kit::crew::Crew;
use par_kit::gate::Gate;
use std::thread::Threads;
use sym_step::Bad;

/// How a node, or an edge of it, was taken up.
#[derive(Drop)]
pub enum Taken {
    /// Wholly.
    All,
    /// Members of the node meet a fault on this edge.
    Fault { edge: u32, bad: Bad },
    /// The budget is full, and a further node is wanted.
    Full,
}

/// Takes up the images of a node, edge by edge. Err is want of memory.
pub fn take_node<R: Threads + Sync, G: Gate>(
    task: &Task<'_, R>,
    nodes: &mut Nodes,
    at: u32,
    images: &[EdgeImage],
    crew: &Crew<'_, G>,
) -> Mem<Taken>
    requires jobs { IsJobs crew.now.jobs }
    requires stage { IsStage task.now.table task.now.graph task.now.height nodes.old at (edge_numbers images.now) }
    requires rises { Rises (edge_numbers images.now) }
    requires within { length nodes.old ≤ task.now.budget }
    requires images { Every (IsImageAt task.now.table task.now.graph task.now.height nodes.old at) images.now }
    ensures { IfOk result
        (IsTakenNode task.now.table task.now.graph task.now.height nodes.old at
        task.now.budget nodes.new) }
{
    for next in images {
        match take_edge(task, nodes, at, next, crew)? {
            Taken::All => {}
            ended => return Ok(ended),
        }
    }
    Ok(Taken::All)
}

/// Takes up one edge: a fault first, else the states to which it leads. Err is want of memory.
fn take_edge<R: Threads + Sync, G: Gate>(
    task: &Task<'_, R>,
    nodes: &mut Nodes,
    at: u32,
    next: &EdgeImage,
    crew: &Crew<'_, G>,
) -> Mem<Taken>
    requires jobs { IsJobs crew.now.jobs }
    requires mid { IsMid task.now.table task.now.graph task.now.height nodes.old at next.now.edge [] }
    requires within { length nodes.old ≤ task.now.budget }
    requires image { IsImageAt task.now.table task.now.graph task.now.height nodes.old at next.now }
    ensures { IfOk result
        (IsTakenEdge task.now.table task.now.graph task.now.height nodes.old at next.now.edge task.now.budget
        nodes.new) }
{
    match &next.image {
        Image::Fault { bad } => {
            let copy = copy_bad(task.alloc(), bad)?;
            Ok(Taken::Fault {
                edge: next.edge,
                bad: copy,
            })
        }
        Image::States { states } => {
            let room = take_states(task, nodes, at, next.edge, states.as_slice(), crew)?;
            Ok(all_or_full(room))
        }
    }
}

/// How an edge was taken up, by whether there was room for all of its states.
fn all_or_full(room: bool) -> Taken
    ensures { result ≡ all_or_full room }
{
    if room { Taken::All } else { Taken::Full }
}

/// Takes up the states to which an edge leads: each becomes a node, unless a node of its location covers it. False
/// where the budget has no room for one. Err is want of memory.
fn take_states<R: Threads + Sync, G: Gate>(
    task: &Task<'_, R>,
    nodes: &mut Nodes,
    at: u32,
    number: u32,
    states: &[State],
    crew: &Crew<'_, G>,
) -> Mem<bool>
    requires jobs { IsJobs crew.now.jobs }
    requires mid { IsMid task.now.table task.now.graph task.now.height nodes.old at number [] }
    requires within { length nodes.old ≤ task.now.budget }
    requires due { AreDue task.now.table task.now.graph task.now.height nodes.old at number states.now }
    ensures { IfOk result
        (AreFirstTaken task.now.table task.now.graph task.now.height nodes.old at number task.now.budget states.now
        (length states.now) nodes.new) }
{
    task.known();
    let head = head_of(at, number, edge_at(task.graph(), number));
    for state in states {
        let rules = rules_of(state.forest().forest());
        let crew = crew_for(crew, rules, COVERING_RULES);
        match nodes.add_uncovered(task.rt(), task.alloc(), head, state, task.budget(), &crew)? {
            Placed::Full => return Ok(false),
            _ => {}
        }
    }
    Ok(true)
}

/// The head of a node to which the edge leads.
fn head_of(at: u32, number: u32, edge: &Edge) -> NodeHead
    ensures { (a : AbstractState) → record { head = result; state = a } ≡ child at number edge.now a }
{
    NodeHead {
        location: edge.to,
        parent: Some(at),
        edge: Some(number),
        choice: edge.choice,
    }
}
