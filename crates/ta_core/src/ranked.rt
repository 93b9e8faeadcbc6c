// Tests for what an automaton's type keeps.

ghost use Rattle.std.specs.Prelude.{◌↔◌, ◌<◌, IsTrue};
ghost use Rattle.fore_base.specs.Lists.{Every};
ghost use Rattle.ta_core.specs.Auto.{IsRankedRule};

use crate::auto::Rule;

/// Whether each state is below the limit.
pub fn are_below(limit: u32, states: &[u32]) -> bool
    ensures { IsTrue result ↔ Every (λ q. q < limit) states.now }
{
    for state in states {
        if *state >= limit {
            return false;
        }
    }
    true
}

/// Whether the states of each rule are below the limit, and its children are as many as its symbol has.
pub fn are_ranked(limit: u32, rules: &[Rule]) -> bool
    ensures { IsTrue result ↔ Every (IsRankedRule limit) rules.now }
{
    for rule in rules {
        if !is_ranked(limit, rule) {
            return false;
        }
    }
    true
}

fn is_ranked(limit: u32, rule: &Rule) -> bool
    ensures { IsTrue result ↔ IsRankedRule limit rule.now }
{
    rule.state < limit
        && are_below(limit, rule.children.as_slice())
        && rule.children.len() == rule.symbol.arity()
}
