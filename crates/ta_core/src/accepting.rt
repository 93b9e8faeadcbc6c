// Whether a tree is accepted, and to which states a tree has a run.

ghost use Rattle.std.specs.Prelude.{◌≡◌, ◌↔◌, ◌<◌, IsTrue, IfOk, List};
ghost use Rattle.fore_base.specs.Lists.{Every};
ghost use Rattle.ta_core.specs.Language.{InLanguage};
ghost use Rattle.fore_base.specs.Marks.{MarksOf, marked_each};
ghost use Rattle.ta_core.specs.Tops.{IsTopRule, Tops};

use crate::auto::{Auto, Rule};
use crate::running::run_states;
use crate::symbol::Symbol;
use crate::tree::Tree;
use fore_base::list::List;
use fore_base::marks::{is_marked, is_some_marked, mark, unmarked};
use fore_base::memory::Mem;
use std::alloc::Global;

/// Whether the tree is in the automaton's language.
///
/// # Errors
///
/// Want of memory.
pub fn accepts(alloc: Global, auto: &Auto, tree: &Tree) -> Mem<bool>
    ensures { IfOk result (λ yes. IsTrue yes ↔ InLanguage auto.now tree.now) }
{
    let states = run_states(alloc, auto.rules.as_slice(), auto.states, tree)?;
    Ok(is_some_marked(states.as_slice(), auto.roots.as_slice()))
}

/// The states to which a tree with this symbol has a run, by those of its children.
///
/// # Errors
///
/// Want of memory.
pub fn top_states(
    alloc: Global,
    rules: &[Rule],
    states: u32,
    symbol: &Symbol,
    sets: &List<List<bool>>,
) -> Mem<List<bool>>
    requires { Every (λ r. r.state < states) rules.now }
    ensures { IfOk result (MarksOf states (Tops rules.now symbol.now sets.now)) }
{
    let mut marks = unmarked(alloc, states as usize)?;
    for rule in rules {
        if is_top(rule, symbol, sets) {
            mark(&mut marks, rule.state);
        }
    }
    Ok(marks)
}

/// Whether the rule has the symbol, and each child of it is in the set in its place.
fn is_top(rule: &Rule, symbol: &Symbol, sets: &List<List<bool>>) -> bool
    ensures { IsTrue result ↔ IsTopRule symbol.now sets.now rule.now }
{
    rule.symbol.is_same(symbol) && are_marked_each(rule.children.as_slice(), sets)
}

/// Whether the sets are as many as the states, and each state is in the set in its place.
fn are_marked_each(states: &[u32], sets: &List<List<bool>>) -> bool
    ensures { result ≡ marked_each states.now sets.now }
{
    if states.len() != sets.len() {
        return false;
    }
    for (place, state) in states.iter().enumerate() {
        if !is_marked(sets.at(place).as_slice(), *state) {
            return false;
        }
    }
    true
}
