// Automata that are bottom-up deterministic: no two rules have one left side, which is the symbol with the children.

ghost use Rattle.std.specs.Prelude.{◌≡◌, ◌↔◌, IsTrue};
ghost use Rattle.fore_base.specs.Lists.{Every};
ghost use Rattle.ta_reduce.specs.inner.Determinism.{HasSameLeft, IsApart, IsDeterministic};

use ta_core::auto::{Auto, Rule};

/// Whether no two rules, at two places of the list, have one left side. Takes no memory.
pub fn is_deterministic(auto: &Auto) -> bool
    ensures { IsTrue result ↔ IsDeterministic auto.now.rules }
{
    are_apart(auto.rules.as_slice())
}

fn are_apart(rules: &[Rule]) -> bool
    ensures { IsTrue result ↔ IsDeterministic rules.now }
{
    let mut rest = rules;
    'rules: while let Some((rule, later)) = rest.split_first() {
        if !is_apart_from(rule, later) {
            return false;
        }
        rest = later;
    }
    true
}

/// Whether the rule has another left side than each of these.
fn is_apart_from(rule: &Rule, others: &[Rule]) -> bool
    ensures { IsTrue result ↔ Every (IsApart rule.now) others.now }
{
    for other in others {
        if has_same_left(rule, other) {
            return false;
        }
    }
    true
}

/// Whether both rules have one left side. Most that differ do so in the children, which are quicker to compare than
/// symbols.
fn has_same_left(left: &Rule, right: &Rule) -> bool
    ensures { IsTrue result ↔ HasSameLeft left.now right.now }
{
    are_same(left.children.as_slice(), right.children.as_slice())
        && left.symbol.is_same(&right.symbol)
}

fn are_same(left: &[u32], right: &[u32]) -> bool
    ensures { IsTrue result ↔ (left.now ≡ right.now) }
{
    left == right
}
