// The edges of a graph by number.
ghost use Rattle.std.specs.Prelude.{◌<◌, length};
ghost use Rattle.fix_core.specs.Explorations.{IsEdge};

use c_cfg::graph::{Edge, Graph};

/// The edge of this number.
pub fn edge_at(graph: &Graph, number: u32) -> &Edge
    requires { number < length graph.now.edges }
    ensures { IsEdge graph.now number result.now }
{
    graph.edges.at(number as usize)
}
