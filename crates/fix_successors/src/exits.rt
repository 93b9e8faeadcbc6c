// The edges of each location.
ghost use Rattle.std.specs.Prelude.{◌≡◌, ◌<◌, [], length, replicate, IfOk};
ghost use Rattle.fore_base.specs.Lists.{Every};
ghost use Rattle.c_cfg.specs.Ranges.{IsEdgeOf};
ghost use Rattle.fix_successors.specs.Exits.{AreExits};
ghost use Rattle.fix_core.specs.Listed.{numbers_at};

use c_cfg::graph::Graph;
use fix_core::numbers::push_at;
use fore_base::list::List;
use fore_base::memory::Mem;
use std::alloc::Global;

/// For each location of the graph the numbers of the edges that begin there, in order. Err is want of memory.
pub fn exits_of(alloc: Global, graph: &Graph) -> Mem<List<List<u32>>>
    requires { Every (IsEdgeOf graph.now) graph.now.edges }
    ensures exits { IfOk result (AreExits graph.now (length graph.now.edges)) }
    ensures entry { 0 < graph.now.locations }
{
    let mut exits = no_numbers(alloc, graph.locations)?;
    for (number, edge) in graph.edges.as_slice().iter().enumerate() {
        push_at(&mut exits, edge.from as usize, number as u32)?;
    }
    Ok(exits)
}

/// So many empty lists.
fn no_numbers(alloc: Global, count: u32) -> Mem<List<List<u32>>>
    ensures { IfOk result (λ made. made ≡ replicate count []) }
{
    let mut made = List::new(alloc);
    for _place in 0..count {
        made.push(List::new(alloc))?;
    }
    Ok(made)
}

/// The numbers of the edges that begin at the location.
pub fn exits_at(exits: &[List<u32>], location: u32) -> &[u32]
    requires { location < length exits.now }
    ensures { result.now ≡ numbers_at exits.now location }
{
    exits[location as usize].as_slice()
}
