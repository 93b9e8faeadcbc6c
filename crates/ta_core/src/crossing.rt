// Symbols, trees, automata and plans of automata can be shared between threads and moved to another.

use crate::auto::Auto;
use crate::tables::Plan;
use crate::tree::Tree;
use fore_base::crossing::crosses;

/// Automata cross threads, and with them rules, symbols and slots.
pub fn automata_cross(auto: &Auto) {
    crosses(auto)
}

/// Trees cross threads.
pub fn trees_cross(tree: &Tree) {
    crosses(tree)
}

/// Plans cross threads, and with them lines and signs.
pub fn plans_cross(plan: &Plan) {
    crosses(plan)
}
