// Automata whose states get other numbers, by a table with a number for each state.

ghost use Rattle.std.specs.Prelude.{◌≡◌, ◌<◌, length, IfOk, map, slice_index};
ghost use Rattle.fore_base.specs.Lists.{Every};
ghost use Rattle.ta_core.specs.Renumbered.{renumbered, image};

use crate::auto::{Auto, Rule};
use fore_base::list::{Copies, List};
use fore_base::memory::Mem;
use std::alloc::Global;

/// The automaton in which each state is its number in the table, below `states`. States with one number are joined.
///
/// # Errors
///
/// Want of memory.
pub fn renumber(alloc: Global, auto: &Auto, numbers: &[u32], states: u32) -> Mem<Auto>
    requires long { length numbers.now ≡ auto.now.states }
    requires low { Every (λ n. n < states) numbers.now }
    ensures { IfOk result (λ made. made ≡ image states (λ q. slice_index numbers.now q) auto.now) }
{
    let roots = numbers_of(alloc, numbers, auto.roots.as_slice())?;
    let rules = with_numbers_each(alloc, auto.rules.as_slice(), numbers)?;
    Ok(Auto {
        states,
        roots,
        rules,
    })
}

fn with_numbers_each(alloc: Global, rules: &[Rule], numbers: &[u32]) -> Mem<List<Rule>>
    ensures { IfOk result (λ made. made ≡ map (renumbered (λ q. slice_index numbers.now q)) rules.now) }
{
    let mut made = List::new(alloc);
    for rule in rules {
        let rule = with_numbers(alloc, rule, numbers)?;
        made.push(rule)?;
    }
    Ok(made)
}

/// The rule in which each state is its number in the table.
///
/// # Errors
///
/// Want of memory.
pub fn with_numbers(alloc: Global, rule: &Rule, numbers: &[u32]) -> Mem<Rule>
    ensures { IfOk result (λ made. made ≡ renumbered (λ q. slice_index numbers.now q) rule.now) }
{
    Ok(Rule {
        state: number_of(numbers, rule.state),
        symbol: rule.symbol.copy(alloc)?,
        children: numbers_of(alloc, numbers, rule.children.as_slice())?,
    })
}

fn numbers_of(alloc: Global, numbers: &[u32], states: &[u32]) -> Mem<List<u32>>
    ensures { IfOk result (λ made. made ≡ map (λ q. slice_index numbers.now q) states.now) }
{
    let mut made = List::new(alloc);
    for state in states {
        made.push(number_of(numbers, *state))?;
    }
    Ok(made)
}

/// The state's number in the table, 0 where the table ends before it.
pub fn number_of(numbers: &[u32], state: u32) -> u32
    ensures { result ≡ slice_index numbers.now state }
{
    match numbers.get(state as usize) {
        Some(number) => *number,
        None => 0,
    }
}
