// Arcs, by which the states of an automaton are reached.

use fore_base::list::List;

/// Where all the states of `from` are reached, `to` is too.
#[derive(Drop)]
pub struct Arc {
    pub from: List<u32>,
    pub to: u32,
}
