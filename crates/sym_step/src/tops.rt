// The one rule at the top of a component's trees.

ghost use Rattle.std.specs.Prelude.{◌≡◌, length};
ghost use Rattle.ta_core.specs.Single.{HasOneTop};
ghost use Rattle.fa_core.specs.Ways.{has};
ghost use Rattle.fa_split.specs.Split.{first_of, top_rule};

use ta_core::auto::{Auto, Rule};

/// How many children the one rule at the top has.
pub fn count_children(auto: &Auto) -> usize
    requires { HasOneTop auto.now }
    ensures { result ≡ length (top_rule auto.now).children }
{
    top_rule(auto).children.len()
}

fn top_rule(auto: &Auto) -> &Rule
    requires { HasOneTop auto.now }
    ensures { result.now ≡ top_rule auto.now }
{
    let roots = auto.roots.as_slice();
    for rule in auto.rules.as_slice() {
        if is_one_of(rule.state, roots) {
            return rule;
        }
    }
    unreachable!()
}

fn is_one_of(state: u32, states: &[u32]) -> bool
    ensures { result ≡ has state states.now }
{
    for other in states {
        if state == *other {
            return true;
        }
    }
    false
}
