// The automata of a lifted cell: its own, and what is left without it.

ghost use Rattle.std.specs.Prelude.{◌≡◌, ◌+◌, ◌<◌, ◌^◌, [], ◌∷◌, map, length, nat_eq, if◌then◌else◌};
ghost use Rattle.std.specs.Prelude.{IfOk};
ghost use Rattle.fore_base.specs.Lists.{IsIn, Every};
ghost use Rattle.ta_core.specs.Auto.{IsRankedRule};
ghost use Rattle.fa_lift.specs.Lift.{owner, hatted, hat_children, hat_rule, hat_rules};

use fa_core::forest::Target;
use fa_split::{choose, copied_rules, fix_child, roots_of, rules_of, states_of};
use fore_base::list::{Copies, List};
use fore_base::memory::Mem;
use std::alloc::{AllocError, Global};
use ta_core::auto::{Auto, Rule};
use ta_core::joining::room;
use ta_core::symbol::Symbol;

/// The trees of the automaton by the rule in which the reference to the root stands at the place. Err is want of
/// memory.
pub fn owner(alloc: Global, auto: &Auto, rule: &Rule, place: usize, root: u32) -> Mem<Auto>
    requires rule { IsIn rule.now auto.now.rules }
    requires place { place < length rule.now.children }
    ensures { IfOk result (λ made. made ≡ owner auto.now rule.now place root) }
{
    auto.known();
    let one = choose(alloc, auto, rule)?;
    fix_child(alloc, &one, place, Target::At(root))
}

/// The trees of the automaton with one cell of the state, not the top, taken out, and the reference to the root in its
/// place. Err is want of memory.
pub fn hatted(alloc: Global, auto: &Auto, state: u32, root: u32) -> Mem<Auto>
    requires { state < auto.now.states }
    ensures { IfOk result (λ made. made ≡ hatted auto.now state root) }
{
    auto.known();
    let by = states_of(auto);
    let twice = room(auto, by)?;
    let states = one_more(twice)?;
    let roots = moved_up(alloc, roots_of(auto), by)?;
    let mut rules = copied_rules(alloc, auto)?;
    rules.push(hole(alloc, twice, root))?;
    let hats = hat_rules(alloc, rules_of(auto), by, state)?;
    rules.append(hats)?;
    Ok(Auto {
        states,
        roots,
        rules,
    })
}

fn one_more(number: u32) -> Mem<u32>
    ensures { IfOk result (λ more. more ≡ number + 1) }
{
    match number.checked_add(1) {
        Some(more) => Ok(more),
        None => Err(AllocError),
    }
}

/// The rule of the one leaf in the place of the cell.
fn hole(alloc: Global, state: u32, root: u32) -> Rule
    ensures { result ≡ record { state = state; symbol = Symbol.Ref root; children = [] } }
{
    Rule {
        state,
        symbol: Symbol::Ref(root),
        children: List::new(alloc),
    }
}

/// The states, each moved up by the number.
fn moved_up(alloc: Global, states: &[u32], by: u32) -> Mem<List<u32>>
    requires within { Every (λ q. q < by) states.now }
    requires fits { by + by < 2 ^ 32 }
    ensures { IfOk result (λ made. made ≡ map (λ q. q + by) states.now) }
{
    let mut made = List::new(alloc);
    for state in states {
        made.push(*state + by)?;
    }
    Ok(made)
}

/// For each rule and each of its children a rule with this child hatted.
fn hat_rules(alloc: Global, rules: &[Rule], by: u32, state: u32) -> Mem<List<Rule>>
    requires within { Every (IsRankedRule by) rules.now }
    requires fits { by + by < 2 ^ 32 }
    ensures { IfOk result (λ made. made ≡ hat_rules by state rules.now) }
{
    let mut made = List::new(alloc);
    for rule in rules {
        let hats = hats_of_rule(alloc, rule, by, state)?;
        made.append(hats)?;
    }
    Ok(made)
}

fn hats_of_rule(alloc: Global, rule: &Rule, by: u32, state: u32) -> Mem<List<Rule>>
    requires within { IsRankedRule by rule.now }
    requires fits { by + by < 2 ^ 32 }
    ensures { IfOk result (λ made. made ≡ map (hat_rule by rule.now) (hat_children by state rule.now.children)) }
{
    let lists = hat_children(alloc, rule.children.as_slice(), by, state)?;
    rules_with(alloc, rule, by, lists.as_slice())
}

/// The rule at its hatted state with each of these lists of children.
fn rules_with(alloc: Global, rule: &Rule, by: u32, lists: &[List<u32>]) -> Mem<List<Rule>>
    requires { rule.now.state + by < 2 ^ 32 }
    ensures { IfOk result (λ made. made ≡ map (hat_rule by rule.now) lists.now) }
{
    let mut made = List::new(alloc);
    for children in lists {
        let one = rule_with(alloc, rule, by, children)?;
        made.push(one)?;
    }
    Ok(made)
}

fn rule_with(alloc: Global, rule: &Rule, by: u32, children: &List<u32>) -> Mem<Rule>
    requires { rule.now.state + by < 2 ^ 32 }
    ensures { IfOk result (λ made. made ≡ hat_rule by rule.now children.now) }
{
    let symbol = rule.symbol.copy(alloc)?;
    let children = children.copy(alloc)?;
    Ok(Rule {
        state: rule.state + by,
        symbol,
        children,
    })
}

/// The states with one of them hatted, or, where it is that of the cell, with the state of the leaf in its place.
fn hat_children(alloc: Global, states: &[u32], by: u32, state: u32) -> Mem<List<List<u32>>>
    requires within { Every (λ q. q < by) states.now }
    requires fits { by + by < 2 ^ 32 }
    ensures { IfOk result (λ made. made ≡ hat_children by state states.now) }
{
    match states.split_first() {
        None => Ok(List::new(alloc)),
        Some((first, rest)) => {
            let more = hat_children(alloc, rest, by, state)?;
            hats_with(alloc, *first, rest, more.as_slice(), by, state)
        }
    }
}

/// So where the first of the states stands before the rest, and these are the lists for the rest.
fn hats_with(
    alloc: Global,
    first: u32,
    rest: &[u32],
    more: &[List<u32>],
    by: u32,
    state: u32,
) -> Mem<List<List<u32>>>
    requires within { first < by }
    requires fits { by + by < 2 ^ 32 }
    ensures { IfOk result (λ made. made
        ≡ ((first + by) ∷ rest.now) ∷ (if nat_eq first state
        then ((by + by) ∷ rest.now) ∷ map (λ zs. first ∷ zs) more.now
        else map (λ zs. first ∷ zs) more.now)) }
{
    let mut made = List::new(alloc);
    let hat = with_first(alloc, first + by, rest)?;
    made.push(hat)?;
    if first == state {
        let gap = with_first(alloc, by + by, rest)?;
        made.push(gap)?;
    }
    let others = each_with_first(alloc, first, more)?;
    made.append(others)?;
    Ok(made)
}

fn each_with_first(alloc: Global, first: u32, lists: &[List<u32>]) -> Mem<List<List<u32>>>
    ensures { IfOk result (λ made. made ≡ map (λ zs. first ∷ zs) lists.now) }
{
    let mut made = List::new(alloc);
    for states in lists {
        let longer = with_first(alloc, first, states.as_slice())?;
        made.push(longer)?;
    }
    Ok(made)
}

fn with_first(alloc: Global, first: u32, rest: &[u32]) -> Mem<List<u32>>
    ensures { IfOk result (λ made. made ≡ first ∷ rest.now) }
{
    let mut made = List::new(alloc);
    made.push(first)?;
    let rest = List::from_slice(alloc, rest)?;
    made.append(rest)?;
    Ok(made)
}
