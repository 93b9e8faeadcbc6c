// Items of an automaton, state by state: its rules, and the uses of states in them.

ghost use Rattle.std.specs.Prelude.{◌≡◌, [], ◌∷◌, ◌++◌, ◌<◌, length, slice_set, replicate, IfOk, OnOk, List};
ghost use Rattle.fore_base.specs.Lists.{Every};
ghost use Rattle.ta_core.specs.declared.auto.Rule.{Rule};
ghost use Rattle.ta_sim.specs.declared.grouping.Use.{Use};
ghost use Rattle.ta_sim.specs.inner.Matching.{group_at, AreByState};
ghost use Rattle.ta_sim.specs.inner.Using.{AreByChild, AreGroupedUses, all_uses, uses_in};

use fore_base::list::{Copies, List};
use fore_base::memory::Mem;
use std::alloc::Global;
use ta_core::auto::Rule;

/// For each state the list of its rules.
pub fn by_state(alloc: Global, rules: &[Rule], states: u32) -> Mem<List<List<Rule>>>
    requires { Every (λ r. r.state < states) rules.now }
    ensures { IfOk result (AreByState rules.now states) }
{
    let mut groups = no_items(alloc, states)?;
    for rule in rules {
        let own = rule.copy(alloc)?;
        add(&mut groups, rule.state, own)?;
    }
    Ok(groups)
}

/// A rule, with a place at which a state is its child.
#[derive(Drop)]
pub struct Use {
    pub child: u32,
    pub place: usize,
    pub rule: Rule,
}

/// For each state the list of its uses.
pub fn by_child(alloc: Global, rules: &[Rule], states: u32) -> Mem<List<List<Use>>>
    requires { Every (λ r. Every (λ q. q < states) r.children) rules.now }
    ensures { IfOk result (AreByChild rules.now states) }
{
    let mut groups = no_items(alloc, states)?;
    for rule in rules {
        add_uses(alloc, rule, states, &mut groups)?;
    }
    Ok(groups)
}

/// Adds the rule at each place to the uses of its child there.
fn add_uses(alloc: Global, rule: &Rule, _states: u32, groups: &mut List<List<Use>>) -> Mem<()>
    requires low { Every (λ q. q < _states) rule.now.children }
    requires long { length groups.old ≡ _states }
    ensures { OnOk result ((before : List Use) → AreGroupedUses before _states groups.old
        → AreGroupedUses (before ++ uses_in rule.now) _states groups.new) }
{
    for (place, child) in rule.children.as_slice().iter().enumerate() {
        let own = Use {
            child: *child,
            place,
            rule: rule.copy(alloc)?,
        };
        add(groups, *child, own)?;
    }
    Ok(())
}

/// An empty list for each state.
fn no_items<T: Drop>(alloc: Global, states: u32) -> Mem<List<List<T>>>
    ensures { IfOk result (λ groups. groups ≡ replicate states []) }
{
    let mut groups = List::new(alloc);
    for _state in 0..states {
        groups.push(List::new(alloc))?;
    }
    Ok(groups)
}

/// Adds the item to those of the state.
fn add<T: Drop>(groups: &mut List<List<T>>, state: u32, item: T) -> Mem<()>
    requires { state < length groups.old }
    ensures { OnOk result (groups.new ≡ slice_set groups.old state (group_at groups.old state ++ item ∷ [])) }
{
    let group = groups.at_mut(state as usize);
    group.push(item)?;
    Ok(())
}
