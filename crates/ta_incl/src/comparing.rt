// Automata that are equal as values.

ghost use Rattle.std.specs.Prelude.{◌≡◌, ◌↔◌, Some, slice_get, IsTrue};

use ta_core::auto::{Auto, Rule};

/// Whether both automata have as many states, and the same root states and rules in the same order. Takes no memory.
pub fn are_equal(left: &Auto, right: &Auto) -> bool
    ensures { IsTrue result ↔ (left.now ≡ right.now) }
{
    left.states == right.states
        && are_same(left.roots.as_slice(), right.roots.as_slice())
        && are_same_rules(left.rules.as_slice(), right.rules.as_slice())
}

fn are_same(left: &[u32], right: &[u32]) -> bool
    ensures { IsTrue result ↔ (left.now ≡ right.now) }
{
    left == right
}

fn are_same_rules(left: &[Rule], right: &[Rule]) -> bool
    ensures { IsTrue result ↔ (left.now ≡ right.now) }
{
    if left.len() != right.len() {
        return false;
    }
    for (place, rule) in left.iter().enumerate() {
        if !is_at(rule, right, place) {
            return false;
        }
    }
    true
}

/// Whether the rule stands at this place.
fn is_at(rule: &Rule, rules: &[Rule], place: usize) -> bool
    ensures { IsTrue result ↔ (slice_get rules.now place ≡ Some rule.now) }
{
    match rules.get(place) {
        Some(other) => is_same_rule(rule, other),
        None => false,
    }
}

/// Whether the rules are equal. Most that differ do so in their states, which are quicker to compare than symbols.
fn is_same_rule(left: &Rule, right: &Rule) -> bool
    ensures { IsTrue result ↔ (left.now ≡ right.now) }
{
    left.state == right.state
        && are_same(left.children.as_slice(), right.children.as_slice())
        && left.symbol.is_same(&right.symbol)
}
