// Whether one rule stands at the top of an automaton.

ghost use Rattle.std.specs.Prelude.{◌≡◌, ◌↔◌, IsTrue};
ghost use Rattle.ta_core.specs.Single.{HasOneTop};
ghost use Rattle.ta_core.specs.inner.Counted.{rules_at};

use crate::auto::{Auto, Rule};

/// Whether exactly one of the rules is at the state.
fn has_one_rule(rules: &[Rule], state: u32) -> bool
    ensures { IsTrue result ↔ (rules_at state rules.now ≡ 1) }
{
    let mut found = false;
    for rule in rules {
        if rule.state == state {
            if found {
                return false;
            }
            found = true;
        }
    }
    found
}

/// Whether there is one root state, listed once, and that has one rule, listed once.
pub fn has_one_top(auto: &Auto) -> bool
    ensures { IsTrue result ↔ HasOneTop auto.now }
{
    let roots = roots_of(auto);
    roots.len() == 1 && has_one_rule(rules_of(auto), roots[0])
}

fn roots_of(auto: &Auto) -> &[u32]
    ensures { result.now ≡ auto.now.roots }
{
    auto.roots.as_slice()
}

fn rules_of(auto: &Auto) -> &[Rule]
    ensures { result.now ≡ auto.now.rules }
{
    auto.rules.as_slice()
}
