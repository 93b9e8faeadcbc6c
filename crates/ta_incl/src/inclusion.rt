// The answer on inclusion.

use fore_base::list::List;
use ta_core::tree::Tree;

/// A state of the left automaton, and a set of states of the right one, in rising order.
#[derive(PartialEq, Eq, Drop)]
pub struct Pair {
    pub state: u32,
    pub set: List<u32>,
}

/// Whether each tree of the left automaton is one of the right one.
#[derive(Drop)]
pub enum Inclusion {
    /// Each is. The pairs are an antichain that is closed under the rules and meets the roots.
    Yes { pairs: List<Pair> },
    /// This tree of the left automaton is none of the right one.
    No { tree: Tree },
}
