// The automaton in which the trees of another stand in the place of the leaves that refer to its root.

ghost use Rattle.std.specs.Prelude.{◌≡◌, ◌<◌, ◌+◌, ◌++◌, ◌^◌, map, IfOk};
ghost use Rattle.fore_base.specs.Lists.{Every};
ghost use Rattle.ta_core.specs.Joined.{CanShift, CanShiftRule, shift};
ghost use Rattle.fa_merge.specs.Merged.{bridge, bridges, is_ref, kept, merged, moved};

use fa_core::cells::has;
use fore_base::list::{Copies, List};
use fore_base::memory::Mem;
use std::alloc::Global;
use ta_core::auto::{Auto, Rule};
use ta_core::joining::{rename, room};
use ta_core::symbol::Symbol;

/// The automaton `onto` with the trees of `last` in the place of the leaves that refer to the root. Err is want of
/// memory.
pub fn merge_auto(alloc: Global, onto: &Auto, last: &Auto, root: u32) -> Mem<Auto>
    ensures { IfOk result (λ made. made ≡ merged root onto.now last.now) }
{
    onto.known();
    last.known();
    let states = room(onto, states_of(last))?;
    let rules = merged_rules(alloc, onto, last, root)?;
    let roots = roots_of(alloc, onto)?;
    Ok(Auto {
        states,
        roots,
        rules,
    })
}

fn states_of(auto: &Auto) -> u32
    ensures { result ≡ auto.now.states }
{
    auto.states
}

fn roots_of(alloc: Global, auto: &Auto) -> Mem<List<u32>>
    ensures { IfOk result (λ made. made ≡ auto.now.roots) }
{
    auto.roots.copy(alloc)
}

fn merged_rules(alloc: Global, onto: &Auto, last: &Auto, root: u32) -> Mem<List<Rule>>
    requires { last.now.states + onto.now.states < 2 ^ 32 }
    ensures { IfOk result (λ made. made ≡ kept root onto.now.rules
        ++ (moved onto.now.states last.now.rules ++ bridges onto.now.states root last.now onto.now.rules)) }
{
    let by = states_of(onto);
    let mut rules = old_rules(alloc, onto, root)?;
    let mut more = new_rules(alloc, last, by)?;
    let between = between_rules(alloc, onto, last, root, by)?;
    more.append(between)?;
    rules.append(more)?;
    Ok(rules)
}

fn old_rules(alloc: Global, onto: &Auto, root: u32) -> Mem<List<Rule>>
    ensures { IfOk result (λ made. made ≡ kept root onto.now.rules) }
{
    kept_rules(alloc, onto.rules.as_slice(), root)
}

fn new_rules(alloc: Global, last: &Auto, by: u32) -> Mem<List<Rule>>
    requires { last.now.states + by < 2 ^ 32 }
    ensures { IfOk result (λ made. made ≡ moved by last.now.rules) }
{
    let Auto { rules, .. } = rename(alloc, last, by)?;
    Ok(rules)
}

fn between_rules(alloc: Global, onto: &Auto, last: &Auto, root: u32, by: u32) -> Mem<List<Rule>>
    requires { last.now.states + by < 2 ^ 32 }
    ensures { IfOk result (λ made. made ≡ bridges by root last.now onto.now.rules) }
{
    all_bridges(alloc, onto.rules.as_slice(), root, last, by)
}

/// The rules but those of leaves that refer to the root.
fn kept_rules(alloc: Global, rules: &[Rule], root: u32) -> Mem<List<Rule>>
    ensures { IfOk result (λ made. made ≡ kept root rules.now) }
{
    let mut made = List::new(alloc);
    for rule in rules {
        if !refers_to(&rule.symbol, root) {
            let rule = rule.copy(alloc)?;
            made.push(rule)?;
        }
    }
    Ok(made)
}

/// For each rule of a leaf that refers to the root, the root rules of `last` at its state.
fn all_bridges(alloc: Global, rules: &[Rule], root: u32, last: &Auto, by: u32) -> Mem<List<Rule>>
    requires { last.now.states + by < 2 ^ 32 }
    ensures { IfOk result (λ made. made ≡ bridges by root last.now rules.now) }
{
    let mut made = List::new(alloc);
    for rule in rules {
        if refers_to(&rule.symbol, root) {
            let more = bridge_rules(
                alloc,
                last.rules.as_slice(),
                last.roots.as_slice(),
                rule.state,
                by,
            )?;
            made.append(more)?;
        }
    }
    Ok(made)
}

/// The rules of root states, at this state.
fn bridge_rules(
    alloc: Global,
    rules: &[Rule],
    roots: &[u32],
    state: u32,
    by: u32,
) -> Mem<List<Rule>>
    requires { Every (CanShiftRule by) rules.now }
    ensures { IfOk result (λ made. made ≡ bridge by state roots.now rules.now) }
{
    let mut made = List::new(alloc);
    for rule in rules {
        if has(rule.state, roots) {
            let rule = bridged_rule(alloc, rule, state, by)?;
            made.push(rule)?;
        }
    }
    Ok(made)
}

fn bridged_rule(alloc: Global, rule: &Rule, state: u32, by: u32) -> Mem<Rule>
    requires { Every (CanShift by) rule.now.children }
    ensures { IfOk result (λ made. made
        ≡ record { state = state; symbol = rule.now.symbol; children = map (shift by) rule.now.children }) }
{
    Ok(Rule {
        state,
        symbol: rule.symbol.copy(alloc)?,
        children: shifted_states(alloc, rule.children.as_slice(), by)?,
    })
}

fn shifted_states(alloc: Global, states: &[u32], by: u32) -> Mem<List<u32>>
    requires { Every (CanShift by) states.now }
    ensures { IfOk result (λ made. made ≡ map (shift by) states.now) }
{
    let mut made = List::new(alloc);
    for state in states {
        made.push(*state + by)?;
    }
    Ok(made)
}

fn refers_to(symbol: &Symbol, root: u32) -> bool
    ensures { result ≡ is_ref root symbol.now }
{
    match symbol {
        Symbol::Ref(other) => root == *other,
        _ => false,
    }
}
