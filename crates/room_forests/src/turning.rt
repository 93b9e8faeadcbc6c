// Another form of a forest: its components in the opposite order, each with its states numbered from the other end,
// doubled, and with one more state, which has no trees. The members are the same.

use anyhow::{Context, Result};
use fa_core::forest::{Forest, Target};
use fore_base::list::{Copies, List};
use std::alloc::Global;
use ta_core::auto::{Auto, Rule};
use ta_core::symbol::Symbol;

// The forest in its other form.
pub fn turned(alloc: Global, forest: &Forest) -> Result<Forest> {
    let roots = u32::try_from(forest.autos.len())?;
    let autos = turned_autos(alloc, forest.autos.as_slice(), roots)?;
    let vars = turned_targets(alloc, forest.vars.as_slice(), roots)?;
    let data_vars = List::new(alloc);
    Ok(Forest {
        autos,
        vars,
        data_vars,
    })
}

fn turned_autos(alloc: Global, autos: &[Auto], roots: u32) -> Result<List<Auto>> {
    let mut made = List::new(alloc);
    for auto in autos.iter().rev() {
        let auto = doubled(alloc, auto, roots)?;
        made.push(auto)?;
    }
    Ok(made)
}

fn turned_targets(alloc: Global, targets: &[Target], roots: u32) -> Result<List<Target>> {
    let mut made = List::new(alloc);
    for target in targets {
        let target = turned_target(*target, roots)?;
        made.push(target)?;
    }
    Ok(made)
}

fn turned_target(target: Target, roots: u32) -> Result<Target> {
    match target {
        Target::At(root) => Ok(Target::At(from_end(root, roots)?)),
        other => Ok(other),
    }
}

fn doubled(alloc: Global, auto: &Auto, roots: u32) -> Result<Auto> {
    let states = plus(plus(auto.states, auto.states)?, 1)?;
    let tops = doubled_tops(alloc, auto)?;
    let rules = doubled_rules(alloc, auto, roots)?;
    Auto::from_parts(states, tops, rules).context("no automaton")
}

fn doubled_tops(alloc: Global, auto: &Auto) -> Result<List<u32>> {
    let mut tops = List::new(alloc);
    add_moved(&mut tops, auto.roots.as_slice(), auto.states, 0)?;
    add_moved(&mut tops, auto.roots.as_slice(), auto.states, auto.states)?;
    Ok(tops)
}

fn doubled_rules(alloc: Global, auto: &Auto, roots: u32) -> Result<List<Rule>> {
    let mut rules = List::new(alloc);
    add_rules(alloc, &mut rules, auto, 0, roots)?;
    add_rules(alloc, &mut rules, auto, auto.states, roots)?;
    Ok(rules)
}

fn add_moved(made: &mut List<u32>, list: &[u32], states: u32, by: u32) -> Result<()> {
    for state in list {
        let state = moved(*state, states, by)?;
        made.push(state)?;
    }
    Ok(())
}

fn add_rules(
    alloc: Global,
    rules: &mut List<Rule>,
    auto: &Auto,
    by: u32,
    roots: u32,
) -> Result<()> {
    for rule in auto.rules.as_slice() {
        let rule = moved_rule(alloc, rule, auto.states, by, roots)?;
        rules.push(rule)?;
    }
    Ok(())
}

fn moved_rule(alloc: Global, rule: &Rule, states: u32, by: u32, roots: u32) -> Result<Rule> {
    let state = moved(rule.state, states, by)?;
    let children = moved_all(alloc, rule.children.as_slice(), states, by)?;
    let symbol = turned_symbol(alloc, &rule.symbol, roots)?;
    Ok(Rule {
        state,
        symbol,
        children,
    })
}

fn moved_all(alloc: Global, list: &[u32], states: u32, by: u32) -> Result<List<u32>> {
    let mut made = List::new(alloc);
    add_moved(&mut made, list, states, by)?;
    Ok(made)
}

fn turned_symbol(alloc: Global, symbol: &Symbol, roots: u32) -> Result<Symbol> {
    match symbol {
        Symbol::Ref(root) => Ok(Symbol::Ref(from_end(*root, roots)?)),
        other => Ok(other.copy(alloc)?),
    }
}

// The state's number from the other end, in the first or the second half.
fn moved(state: u32, states: u32, by: u32) -> Result<u32> {
    plus(from_end(state, states)?, by)
}

fn from_end(number: u32, count: u32) -> Result<u32> {
    let last = count.checked_sub(1).context("no numbers")?;
    last.checked_sub(number).context("out of range")
}

fn plus(number: u32, by: u32) -> Result<u32> {
    number.checked_add(by).context("too many")
}
