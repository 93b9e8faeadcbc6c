// Values that hold only data can be shared between threads and moved to another.

use crate::graph::Graph;
use fore_base::crossing::crosses;

/// Graphs cross threads, and with them their edges.
pub fn graph_crosses(graph: &Graph) {
    crosses(graph)
}
