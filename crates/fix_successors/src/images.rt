// What the edges of its location make of a node: each a fault, or states.
ghost use Rattle.std.specs.Prelude.{◌≡◌, ◌<◌, length, IfOk};
ghost use Rattle.fore_base.specs.Lists.{IsIn};
ghost use Rattle.fa_core.specs.Filled.{IsSound};
ghost use Rattle.fix_successors.specs.Images.{AreImages, IsImage};
ghost use Rattle.fix_successors.specs.Ready.{IsNormal};

use crate::arrivals::arrivals_of;
use crate::exits::exits_at;
use crate::posts::post_of;
use crate::task::Task;
use c_cfg::graph::Edge;
use fix_core::edges::edge_at;
use fix_core::nodes::Due;
use fix_core::states::State;
use fore_base::list::List;
use fore_base::memory::Mem;
use std::alloc::Global;
use std::thread::Threads;
use sym_step::Bad;

/// What an edge makes of a node.
#[derive(Drop)]
pub enum Image {
    /// These members of the node meet a fault on the edge.
    Fault { bad: Bad },
    /// No member meets one, and these are the states to which the edge leads.
    States { states: List<State> },
}

/// What an edge makes of a node, with the edge's number.
#[derive(Drop)]
pub struct EdgeImage {
    pub edge: u32,
    pub image: Image,
}

/// What each edge of its location makes of a node, by number. It depends on the node alone: on no other node, and not
/// on the crew. Err is want of memory.
pub fn images_of<R: Threads + Sync>(task: &Task<'_, R>, due: &Due) -> Mem<List<EdgeImage>>
    requires normal { IsNormal task.now.table task.now.graph due.now.forest }
    requires location { due.now.location < task.now.graph.locations }
    ensures { IfOk result
        (AreImages task.now.table task.now.graph task.now.height due.now.location due.now.forest.forest) }
{
    task.known();
    let mut all = List::new(task.alloc());
    for number in exits_at(task.exits(), due.location) {
        let edge = edge_at(task.graph(), *number);
        let image = image_of(task, due, edge)?;
        all.push(EdgeImage {
            edge: *number,
            image,
        })?;
    }
    Ok(all)
}

/// What an edge of the graph makes of a node, from its post: the first fault, else the states of the cases. Err is want
/// of memory.
fn image_of<R: Threads + Sync>(task: &Task<'_, R>, due: &Due, edge: &Edge) -> Mem<Image>
    requires normal { IsNormal task.now.table task.now.graph due.now.forest }
    requires listed { IsIn edge.now task.now.graph.edges }
    ensures { IfOk result
        (IsImage task.now.table task.now.graph task.now.height due.now.forest.forest edge.now) }
{
    task.known();
    let post = post_of(task, due, edge)?;
    if let Some(first) = post.faults.get(0) {
        let bad = copy_bad(task.alloc(), first)?;
        return Ok(Image::Fault { bad });
    }
    let states = arrivals_of(task, edge, post.next.as_slice())?;
    Ok(Image::States { states })
}

/// An equal fault, with members in a forest of its own. Err is want of memory.
pub fn copy_bad(alloc: Global, bad: &Bad) -> Mem<Bad>
    ensures same { IfOk result (λ other. other ≡ bad.now) }
    ensures sound { IsSound bad.now.at.face bad.now.at.forest }
{
    bad.at.known();
    Ok(Bad {
        fault: bad.fault,
        at: bad.at.copy(alloc)?,
    })
}
