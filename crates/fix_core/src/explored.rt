// What an exploration finds.

use crate::nodes::Nodes;
use fa_sound::Sound;
use fore_base::fault::Fault;
use fore_base::list::List;

/// A chain of nodes from node 0 on, an edge from the location of the last one, and members of that node that all meet
/// the fault on the edge.
#[derive(Drop)]
pub struct AbsTrace {
    /// The numbers of the nodes.
    pub nodes: List<u32>,
    /// The number of the edge.
    pub edge: u32,
    /// The choices of the edges, with those of the last one.
    pub choices: List<u8>,
    pub fault: Fault,
    /// The line of the edge.
    pub line: u32,
    /// How many edges it has, the last one included.
    pub steps: u64,
    /// The members of the last node that meet the fault.
    pub last: Sound,
}

/// How an exploration ends.
#[derive(Drop)]
pub enum Explored {
    /// Every node is done.
    Closed { nodes: Nodes },
    /// A node has members that meet a fault.
    Faulty { nodes: Nodes, trace: AbsTrace },
    /// The nodes are as many as the budget, and a further one is wanted.
    Spent { nodes: Nodes },
}
