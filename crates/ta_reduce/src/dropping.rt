// Rules that are left out, since another rule of their state matches them.

ghost use Rattle.std.specs.Prelude.{◌↔◌, IsTrue, IfOk};
ghost use Rattle.fore_base.specs.Lists.{Every, Paired};
ghost use Rattle.ta_sim.specs.Relations.{Holds};
ghost use Rattle.ta_reduce.specs.inner.Reduction.{IsGreatest, IsLeft, IsPreorder};
ghost use Rattle.ta_reduce.specs.inner.Thinned.{Matches, HasMatch, IsThinned, AreNeeded};

use fore_base::list::{Copies, List};
use fore_base::memory::Mem;
use std::alloc::Global;
use ta_core::auto::{Auto, Rule};
use ta_sim::relation::{Relation, are_related};

/// The automaton without needless rules.
///
/// # Errors
///
/// Want of memory.
pub fn without_needless(alloc: Global, auto: &Auto, relation: &Relation) -> Mem<Auto>
    requires greatest { IsGreatest auto.now relation.now }
    requires preorder { IsPreorder relation.now }
    ensures { IfOk result (IsLeft relation.now auto.now) }
{
    let rules = needed_rules(alloc, relation, auto.rules.as_slice())?;
    let roots = auto.roots.copy(alloc)?;
    Ok(Auto {
        states: auto.states,
        roots,
        rules,
    })
}

/// The rules, in their order, of which none matches another and one matches each that is left out.
fn needed_rules(alloc: Global, relation: &Relation, rules: &[Rule]) -> Mem<List<Rule>>
    requires preorder { IsPreorder relation.now }
    requires same { Every (λ r. Matches relation.now r r) rules.now }
    ensures { IfOk result (AreNeeded relation.now rules.now) }
{
    let turned = thinned(alloc, relation, rules)?;
    thinned(alloc, relation, turned.as_slice())
}

/// The rules in the opposite order, without those that a later one matches.
fn thinned(alloc: Global, relation: &Relation, rules: &[Rule]) -> Mem<List<Rule>>
    requires { Every (λ r. Matches relation.now r r) rules.now }
    ensures { IfOk result (IsThinned relation.now rules.now) }
{
    let mut made = List::new(alloc);
    for place in (0..rules.len()).rev() {
        let rule = &rules[place];
        if !has_match(relation, made.as_slice(), rule) {
            made.push(rule.copy(alloc)?)?;
        }
    }
    Ok(made)
}

/// Whether one of the rules matches this one.
fn has_match(relation: &Relation, rules: &[Rule], rule: &Rule) -> bool
    ensures { IsTrue result ↔ HasMatch relation.now rules.now rule.now }
{
    for other in rules {
        if does_match(relation, other, rule) {
            return true;
        }
    }
    false
}

/// Whether `other` matches `rule`.
fn does_match(relation: &Relation, other: &Rule, rule: &Rule) -> bool
    ensures { IsTrue result ↔ Matches relation.now other.now rule.now }
{
    rule.state == other.state
        && rule.symbol.is_same(&other.symbol)
        && has_greater_children(relation, other, rule)
}

/// Whether each child of `rule` is related to that of `other` in its place.
fn has_greater_children(relation: &Relation, other: &Rule, rule: &Rule) -> bool
    ensures { IsTrue result ↔ Paired (Holds relation.now) rule.now.children other.now.children }
{
    are_related(
        relation.rows.as_slice(),
        rule.children.as_slice(),
        other.children.as_slice(),
    )
}
