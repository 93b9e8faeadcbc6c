// The post of an edge: what it makes of the forest of a node.
ghost use Rattle.std.specs.Prelude.{IfOk};
ghost use Rattle.fore_base.specs.Lists.{Every, IsIn};
ghost use Rattle.ta_core.specs.Auto.{IsRanked};
ghost use Rattle.c_cfg.specs.Ranges.{IsEdgeOf};
ghost use Rattle.fix_successors.specs.Posting.{IsPost};
ghost use Rattle.fix_successors.specs.Ready.{IsNormal};

use crate::task::Task;
use c_cfg::graph::Edge;
use fa_sound::Sound;
use fix_core::nodes::Due;
use fore_base::memory::Mem;
use par_kit::crew::Crew;
use par_kit::gate::NoGate;
use std::thread::Threads;
use sym_step::{Post, post};

/// The post of one edge of the graph. Err is want of memory.
pub fn post_of<R: Threads + Sync>(task: &Task<'_, R>, due: &Due, edge: &Edge) -> Mem<Post>
    requires normal { IsNormal task.now.table task.now.graph due.now.forest }
    requires listed { IsIn edge.now task.now.graph.edges }
    ensures { IfOk result (IsPost task.now.table task.now.graph due.now.forest.forest edge.now) }
{
    task.known();
    task.table().known();
    let alone = Crew {
        jobs: 1,
        gate: &NoGate,
    };
    let made = post(
        task.rt(),
        task.alloc(),
        &due.forest,
        edge,
        task.table(),
        &alone,
    )?;
    are_ranked(made.next.as_slice());
    Ok(made)
}

/// Does nothing, and says that the rules of each forest have as many children as their symbols.
fn are_ranked(forests: &[Sound])
    ensures { Every (λ s. Every IsRanked s.forest.autos) forests.now }
{
    for forest in forests {
        forest.known();
    }
}
