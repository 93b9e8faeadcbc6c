// Splitting of forests: one rule chosen at a root, and a child of a root's one rule fixed as a leaf or made a root of
// its own. Each call gives forests that have the members of the first together. What each of them is, is said exactly.
#![tactic(auto)]

pub mod children;
pub mod choosing;
mod ending;
pub mod laws;
mod replacing;
pub mod splitting;
mod topping;

pub use children::child_marks;
pub use choosing::{choose_rule, stands_at_top};
pub use ending::leaf_of;
pub use replacing::ranked_components;
pub use splitting::{can_split, fix_at, fix_leaf, split_child};
pub use topping::{
    alone, children_of, choose, copied_rules, count_children, fix_child, one_root, roots_of,
    rule_at, rule_at_top, rules_of, slots_of, state_at, states_of,
};
