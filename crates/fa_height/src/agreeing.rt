// Agreement to a height, by rounds: states agree to a height of one more where their rules match by the classes so far.

ghost use Rattle.std.specs.Prelude.{◌≡◌, ◌↔◌, List, IsTrue, IfOk};
ghost use Rattle.fore_base.specs.Lists.{Every, Paired};
ghost use Rattle.fa_height.specs.inner.Agreeing.{AreRulesOf, AreRulesEach, IsMatch, HasMatch, AreMatchedIn};
ghost use Rattle.fa_height.specs.inner.Agreeing.{IsAgreement, IsRefined, rules_at};
ghost use Rattle.ta_classes.specs.Classes.{IsOneClass};

use fore_base::list::{Copies, List};
use fore_base::memory::Mem;
use std::alloc::Global;
use ta_classes::{Classes, Likeness, classes_of};
use ta_core::auto::{Auto, Rule};
use ta_core::renumbering::number_of;

/// For each state a class: two states have one class exactly where they agree to the height. Err is want of memory.
pub fn agreement(alloc: Global, auto: &Auto, height: u32) -> Mem<List<u32>>
    ensures { IfOk result (IsAgreement auto.now.rules auto.now.states height) }
{
    auto.known();
    let rules = rules_each(alloc, auto.rules.as_slice(), auto.states)?;
    // to height 0 all states agree: a number past the end of the list is of class 0
    let mut classes = List::new(alloc);
    for _round in 0..height {
        classes = refined(alloc, rules.as_slice(), classes.as_slice(), auto.states)?;
    }
    Ok(classes)
}

/// Agreement to a height of one more.
#[derive(Clone, Copy)]
struct Refining<'a> {
    rules: &'a [List<Rule>],
    classes: &'a [u32],
}

impl Likeness for Refining<'_> {
    ghost use Rattle.fa_height.specs.inner.Agreeing.{AreAlike};

    ghost alike = { λ s. AreAlike s.rules.now s.classes.now };

    fn are_alike(&self, left: u32, right: u32) -> bool {
        are_matched(self.rules, self.classes, left, right)
            && are_matched(self.rules, self.classes, right, left)
    }
}

/// Classes by the rules and the classes so far. Err is want of memory.
fn refined(alloc: Global, rules: &[List<Rule>], classes: &[u32], states: u32) -> Mem<List<u32>>
    ensures { IfOk result (IsRefined rules.now classes.now states) }
{
    let likeness = Refining { rules, classes };
    let made = classes_of(alloc, &likeness, states)?;
    let Classes { numbers, .. } = made;
    Ok(numbers)
}

/// Whether each rule of the left state is matched by one of the right state.
fn are_matched(rules: &[List<Rule>], classes: &[u32], left: u32, right: u32) -> bool
    ensures { IsTrue result ↔ AreMatchedIn rules.now classes.now left right }
{
    are_all_matched(classes, rules_at(rules, left), rules_at(rules, right))
}

fn are_all_matched(classes: &[u32], rules: &[Rule], others: &[Rule]) -> bool
    ensures { IsTrue result ↔ Every (HasMatch classes.now others.now) rules.now }
{
    for rule in rules {
        if !has_match(classes, others, rule) {
            return false;
        }
    }
    true
}

/// Whether one of the rules matches this one.
fn has_match(classes: &[u32], rules: &[Rule], rule: &Rule) -> bool
    ensures { IsTrue result ↔ HasMatch classes.now rules.now rule.now }
{
    for other in rules {
        if is_match(classes, rule, other) {
            return true;
        }
    }
    false
}

/// Whether the two rules have one symbol, and their children one class, place by place.
fn is_match(classes: &[u32], rule: &Rule, other: &Rule) -> bool
    ensures { IsTrue result ↔ IsMatch classes.now rule.now other.now }
{
    other.symbol.is_same(&rule.symbol)
        && are_one_class(classes, rule.children.as_slice(), other.children.as_slice())
}

fn are_one_class(classes: &[u32], left: &[u32], right: &[u32]) -> bool
    ensures { IsTrue result ↔ Paired (IsOneClass classes.now) left.now right.now }
{
    if left.len() != right.len() {
        return false;
    }
    for (place, state) in left.iter().enumerate() {
        if number_of(classes, *state) != number_of(classes, right[place]) {
            return false;
        }
    }
    true
}

/// The rules of the state.
fn rules_at(rules: &[List<Rule>], state: u32) -> &[Rule]
    ensures { result.now ≡ rules_at rules.now state }
{
    match rules.get(state as usize) {
        Some(own) => own.as_slice(),
        None => &[],
    }
}

/// The rules of each state.
fn rules_each(alloc: Global, rules: &[Rule], states: u32) -> Mem<List<List<Rule>>>
    ensures { IfOk result (AreRulesEach rules.now states) }
{
    let mut made = List::new(alloc);
    for state in 0..states {
        let own = rules_of(alloc, rules, state)?;
        made.push(own)?;
    }
    Ok(made)
}

/// The rules of the state, in order.
fn rules_of(alloc: Global, rules: &[Rule], state: u32) -> Mem<List<Rule>>
    ensures { IfOk result (AreRulesOf rules.now state) }
{
    let mut made = List::new(alloc);
    for rule in rules {
        if rule.state == state {
            made.push(rule.copy(alloc)?)?;
        }
    }
    Ok(made)
}
