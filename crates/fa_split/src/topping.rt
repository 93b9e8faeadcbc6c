// Automata with a new root state.

ghost use Rattle.std.specs.Prelude.{◌≡◌, ◌<◌, ◌+◌, ◌^◌, false, [], ◌∷◌, length, IfOk, MatchOption};
ghost use Rattle.fore_base.specs.Lists.{IsIn};
ghost use Rattle.ta_core.specs.Auto.{IsRanked};
ghost use Rattle.ta_core.specs.Single.{HasOneTop};
ghost use Rattle.ta_core.specs.declared.auto.Rule.{Rule};
ghost use Rattle.fa_core.specs.Folding.{symbol_slots};
ghost use Rattle.fa_core.specs.Ways.{has};
ghost use Rattle.fa_split.specs.Chosen.{chosen};
ghost use Rattle.fa_split.specs.Split.{cell_rules, child_state, first_of, fixed, fresh_leaf, fresh_top, lifted};
ghost use Rattle.fa_split.specs.Split.{top_rule};

use fa_core::cells::{has, is_leaf};
use fa_core::forest::Target;
use fa_merge::symbol_of;
use fore_base::list::{Copies, List};
use fore_base::memory::Mem;
use std::alloc::Global;
use ta_core::auto::{Auto, Rule};
use ta_core::joining::room;
use ta_core::symbol::{Slot, Symbol};

/// How many states it has.
pub fn states_of(auto: &Auto) -> u32
    ensures { result ≡ auto.now.states }
{
    auto.states
}

/// Its root states.
pub fn roots_of(auto: &Auto) -> &[u32]
    ensures { result.now ≡ auto.now.roots }
{
    auto.roots.as_slice()
}

/// Its rules.
pub fn rules_of(auto: &Auto) -> &[Rule]
    ensures { result.now ≡ auto.now.rules }
{
    auto.rules.as_slice()
}

/// The slots of the symbol.
pub fn slots_of(symbol: &Symbol) -> &[Slot]
    ensures { result.now ≡ symbol_slots symbol.now }
{
    match symbol {
        Symbol::Cell { slots, .. } => slots.as_slice(),
        _ => &[],
    }
}

/// Its rules, in a list of their own. Err is want of memory.
pub fn copied_rules(alloc: Global, auto: &Auto) -> Mem<List<Rule>>
    ensures { IfOk result (λ made. made ≡ auto.now.rules) }
{
    auto.rules.copy(alloc)
}

/// The root alone, as a list. Err is want of memory.
pub fn one_root(alloc: Global, root: u32) -> Mem<List<u32>>
    ensures { IfOk result (λ made. made ≡ root ∷ []) }
{
    let mut made = List::new(alloc);
    made.push(root)?;
    Ok(made)
}

/// The rule at another state. Err is want of memory.
pub fn rule_at(alloc: Global, rule: &Rule, state: u32) -> Mem<Rule>
    ensures { IfOk result (λ made. made
        ≡ record {
          state = state;
          symbol = rule.now.symbol;
          children = rule.now.children;
        }) }
{
    Ok(Rule {
        state,
        symbol: rule.symbol.copy(alloc)?,
        children: rule.children.copy(alloc)?,
    })
}

/// The automaton with the rule, which is one of its own, alone at a new root state. Err is want of memory.
pub fn choose(alloc: Global, auto: &Auto, rule: &Rule) -> Mem<Auto>
    requires { IsIn rule.now auto.now.rules }
    ensures { IfOk result (λ made. made ≡ chosen auto.now rule.now) }
{
    auto.known();
    alone(alloc, auto, rule)
}

/// The rule alone at a root state of its own, behind the states. Err is want of memory, also where states do not fit 32
/// bits.
pub fn alone(alloc: Global, auto: &Auto, rule: &Rule) -> Mem<Auto>
    requires { IsRanked (chosen auto.now rule.now) }
    ensures { IfOk result (λ made. made ≡ chosen auto.now rule.now) }
{
    let states = room(auto, 1)?;
    let roots = one_root(alloc, states_of(auto))?;
    let mut rules = copied_rules(alloc, auto)?;
    rules.push(rule_at(alloc, rule, states_of(auto))?)?;
    Ok(Auto {
        states,
        roots,
        rules,
    })
}

/// The first rule of one of the states.
fn first_rule<'a>(rules: &'a [Rule], states: &[u32]) -> Option<&'a Rule>
    ensures { MatchOption result ((x : Rule) → IsIn x rules.now → has x.state states.now ≡ false)
        (λ rule. rule.now ≡ first_of states.now rules.now) }
{
    for rule in rules {
        if has(rule.state, states) {
            return Some(rule);
        }
    }
    None
}

/// The one rule at the top.
pub fn rule_at_top(auto: &Auto) -> &Rule
    requires { HasOneTop auto.now }
    ensures { result.now ≡ top_rule auto.now }
{
    match first_rule(rules_of(auto), roots_of(auto)) {
        Some(rule) => rule,
        None => unreachable!(),
    }
}

fn fresh_top_rule(alloc: Global, auto: &Auto, place: usize) -> Mem<Rule>
    requires top { HasOneTop auto.now }
    requires fits { auto.now.states + 1 < 2 ^ 32 }
    ensures { IfOk result (λ made. made ≡ fresh_top auto.now place) }
{
    let state = states_of(auto);
    let mut rule = rule_at(alloc, rule_at_top(auto), state)?;
    rule.children.set_within(place, state + 1);
    Ok(rule)
}

fn fresh_leaf_rule(alloc: Global, auto: &Auto, leaf: Target) -> Rule
    requires { auto.now.states + 1 < 2 ^ 32 }
    ensures { result ≡ fresh_leaf auto.now leaf }
{
    Rule {
        state: states_of(auto) + 1,
        symbol: symbol_of(leaf),
        children: List::new(alloc),
    }
}

/// The automaton with the leaf alone at the place below its one rule at the top. Err is want of memory.
pub fn fix_child(alloc: Global, auto: &Auto, place: usize, leaf: Target) -> Mem<Auto>
    requires top { HasOneTop auto.now }
    requires place { place < length (top_rule auto.now).children }
    ensures { IfOk result (λ made. made ≡ fixed auto.now place leaf) }
{
    auto.known();
    let states = room(auto, 2)?;
    let roots = one_root(alloc, states_of(auto))?;
    let mut rules = copied_rules(alloc, auto)?;
    rules.push(fresh_top_rule(alloc, auto, place)?)?;
    rules.push(fresh_leaf_rule(alloc, auto, leaf))?;
    Ok(Auto {
        states,
        roots,
        rules,
    })
}

/// The states of the children of the one rule at the top.
pub fn children_of(auto: &Auto) -> &[u32]
    requires { HasOneTop auto.now }
    ensures { result.now ≡ (top_rule auto.now).children }
{
    rule_at_top(auto).children.as_slice()
}

/// How many children the one rule at the top has.
pub fn count_children(auto: &Auto) -> usize
    requires { HasOneTop auto.now }
    ensures { result ≡ length (top_rule auto.now).children }
{
    rule_at_top(auto).children.len()
}

/// The state of the child at the place below the one rule at the top.
pub fn state_at(auto: &Auto, place: usize) -> u32
    requires { HasOneTop auto.now }
    ensures { result ≡ child_state auto.now place }
{
    rule_at_top(auto).children.get_or(place, 0)
}

fn rules_of_cells(alloc: Global, rules: &[Rule], from: u32, to: u32) -> Mem<List<Rule>>
    ensures { IfOk result (λ made. made ≡ cell_rules to from rules.now) }
{
    let mut made = List::new(alloc);
    for rule in rules {
        if rule.state == from && !is_leaf(&rule.symbol) {
            made.push(rule_at(alloc, rule, to)?)?;
        }
    }
    Ok(made)
}

/// The automaton of the trees of the state that are cells. Err is want of memory.
pub fn lift_cells(alloc: Global, auto: &Auto, state: u32) -> Mem<Auto>
    ensures { IfOk result (λ made. made ≡ lifted auto.now state) }
{
    auto.known();
    let states = room(auto, 1)?;
    let roots = one_root(alloc, states_of(auto))?;
    let mut rules = copied_rules(alloc, auto)?;
    let more = rules_of_cells(alloc, rules_of(auto), state, states_of(auto))?;
    rules.append(more)?;
    Ok(Auto {
        states,
        roots,
        rules,
    })
}
