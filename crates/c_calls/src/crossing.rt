// Call graphs can be shared between threads and moved to another.

use crate::graph::CallGraph;
use fore_base::crossing::crosses;

/// Call graphs cross threads.
pub fn call_graphs_cross(graph: &CallGraph) {
    crosses(graph)
}
