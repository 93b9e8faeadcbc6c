// State numbers shifted, and two automata side by side.

ghost use Rattle.std.specs.Prelude.{◌≡◌, ◌<◌, ◌≤◌, ◌+◌, ◌^◌, List, IfOk, MatchResult, map};
ghost use Rattle.fore_base.specs.Lists.{Every};
ghost use Rattle.ta_core.specs.Joined.{shift, shifted, united, IsUnion, CanShift, CanShiftRule};
ghost use Rattle.ta_core.specs.Language.{HasSameLanguage};
ghost use Rattle.ta_core.specs.Renumbered.{renumbered};

use crate::auto::{Auto, Rule};
use fore_base::list::{Copies, List};
use fore_base::memory::Mem;
use std::alloc::{AllocError, Global};

/// The number of states when `more` are added to those of the automaton. Takes no memory.
///
/// # Errors
///
/// Want of memory, exactly where the number does not fit 32 bits.
pub fn room(auto: &Auto, more: u32) -> Mem<u32>
    ensures { MatchResult result (λ states. states ≡ auto.now.states + more) (λ _. 2 ^ 32 ≤ auto.now.states + more) }
{
    match auto.states.checked_add(more) {
        Some(states) => Ok(states),
        None => Err(AllocError),
    }
}

/// The automaton with `by` added to each state. Its states are all below the new number, and those below `by` have no
/// rule.
///
/// # Errors
///
/// Want of memory.
pub fn rename(alloc: Global, auto: &Auto, by: u32) -> Mem<Auto>
    requires { auto.now.states + by < 2 ^ 32 }
    ensures value { IfOk result (λ made. made ≡ shifted by auto.now) }
    ensures language { IfOk result (λ made. HasSameLanguage auto.now made) }
{
    let roots = shifted_states(alloc, auto.roots.as_slice(), by)?;
    let rules = shifted_rules(alloc, auto.rules.as_slice(), by)?;
    Ok(Auto {
        states: auto.states + by,
        roots,
        rules,
    })
}

/// An automaton for the trees of either: the states of the left one, and behind them those of the right one.
///
/// # Errors
///
/// Want of memory.
pub fn union(alloc: Global, left: &Auto, right: &Auto) -> Mem<Auto>
    requires { left.now.states + right.now.states < 2 ^ 32 }
    ensures value { IfOk result (λ made. made ≡ united left.now right.now) }
    ensures language { IfOk result (λ made. IsUnion left.now right.now made) }
{
    let mut roots = left.roots.copy(alloc)?;
    let more_roots = shifted_states(alloc, right.roots.as_slice(), left.states)?;
    roots.append(more_roots)?;
    let mut rules = left.rules.copy(alloc)?;
    let more_rules = shifted_rules(alloc, right.rules.as_slice(), left.states)?;
    rules.append(more_rules)?;
    Ok(Auto {
        states: left.states + right.states,
        roots,
        rules,
    })
}

fn shifted_states(alloc: Global, states: &[u32], by: u32) -> Mem<List<u32>>
    requires { Every (CanShift by) states.now }
    ensures { IfOk result (λ made. made ≡ map (shift by) states.now) }
{
    let mut made = List::new(alloc);
    for state in states {
        made.push(*state + by)?;
    }
    Ok(made)
}

fn shifted_rules(alloc: Global, rules: &[Rule], by: u32) -> Mem<List<Rule>>
    requires { Every (CanShiftRule by) rules.now }
    ensures { IfOk result (λ made. made ≡ map (renumbered (shift by)) rules.now) }
{
    let mut made = List::new(alloc);
    for rule in rules {
        let rule = shifted_rule(alloc, rule, by)?;
        made.push(rule)?;
    }
    Ok(made)
}

fn shifted_rule(alloc: Global, rule: &Rule, by: u32) -> Mem<Rule>
    requires { CanShiftRule by rule.now }
    ensures { IfOk result (λ made. made ≡ renumbered (shift by) rule.now) }
{
    Ok(Rule {
        state: rule.state + by,
        symbol: rule.symbol.copy(alloc)?,
        children: shifted_states(alloc, rule.children.as_slice(), by)?,
    })
}
