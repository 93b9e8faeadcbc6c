// Node 0: the stores with which a run begins.
ghost use Rattle.std.specs.Prelude.{◌≡◌, ℕ, IfOk};
ghost use Rattle.fix_engine.specs.inner.Starting.{no_components};
ghost use Rattle.fix_engine.specs.inner.Taking.{IsFront};

use c_cfg::graph::Graph;
use fa_core::forest::{Forest, Target};
use fa_core::table::BoxTable;
use fa_sound::Sound;
use fix_core::nodes::{Node, NodeHead, Nodes};
use fix_core::states::State;
use fore_base::list::List;
use fore_base::memory::Mem;
use fore_base::store::Datum;
use std::alloc::Global;

/// Node 0 alone, at the entry. Err is want of memory.
pub fn first_node(alloc: Global, graph: &Graph, table: &BoxTable) -> Mem<Nodes>
    ensures { IfOk result (λ nodes. (height : ℕ) → IsFront table.now graph.now height nodes 0 1) }
{
    let forest = start_forest(alloc, graph, table)?;
    forest.known();
    let head = NodeHead {
        location: 0,
        parent: None,
        edge: None,
        choice: None,
    };
    let state = State::carried(alloc, forest);
    let node = Node { head, state };
    let nodes = Nodes::one(alloc, &node)?;
    Ok(nodes)
}

/// The forest without components, of which no variable is set. Err is want of memory.
fn start_forest(alloc: Global, graph: &Graph, table: &BoxTable) -> Mem<Sound>
    ensures forest { IfOk result (λ made. made.forest ≡ no_components graph.now.ptrs graph.now.datums) }
    ensures face { IfOk result (λ made. made.face ≡ table.now.face) }
{
    let forest = bare_forest(alloc, graph.ptrs, graph.datums)?;
    Sound::of(alloc, forest, table.face())
}

fn bare_forest(alloc: Global, ptrs: u32, datums: u32) -> Mem<Forest>
    ensures { IfOk result (λ made. made ≡ no_components ptrs datums) }
{
    Ok(Forest {
        autos: List::new(alloc),
        vars: List::filled(alloc, Target::Uninit, ptrs as usize)?,
        data_vars: List::filled(alloc, Datum::Undefined, datums as usize)?,
    })
}
