// An automaton with some of its states alone.

ghost use Rattle.std.specs.Prelude.{◌≡◌, List, length, IfOk, slice_index};
ghost use Rattle.fore_base.specs.Marks.{marked_count};
ghost use Rattle.ta_core.specs.inner.Restricted.{rank, ranks, keeps, kept_states, kept_rules, restricted};

use crate::auto::{Auto, Rule};
use crate::renumbering::{number_of, with_numbers};
use fore_base::list::List;
use fore_base::marks::{are_all_marked, is_marked};
use fore_base::memory::Mem;
use std::alloc::Global;

/// The automaton with the marked states alone, numbered anew in their order, and the rules over these.
pub fn restrict(alloc: Global, auto: &Auto, marks: &[bool]) -> Mem<Auto>
    requires { length marks.now ≡ auto.now.states }
    ensures { IfOk result (λ made. made ≡ restricted marks.now (rank marks.now) auto.now) }
{
    let numbers = new_numbers(alloc, auto.states, marks)?;
    let roots = keep_states(alloc, auto.roots.as_slice(), marks, numbers.as_slice())?;
    let rules = keep_rules(alloc, auto.rules.as_slice(), marks, numbers.as_slice())?;
    Ok(Auto {
        states: count_marked(auto.states, marks),
        roots,
        rules,
    })
}

fn count_marked(states: u32, marks: &[bool]) -> u32
    requires { length marks.now ≡ states }
    ensures { result ≡ marked_count marks.now }
{
    let mut count = 0;
    for state in 0..states {
        if is_marked(marks, state) {
            count += 1;
        }
    }
    count
}

/// For each state how many marked ones come before it.
fn new_numbers(alloc: Global, states: u32, marks: &[bool]) -> Mem<List<u32>>
    requires { length marks.now ≡ states }
    ensures { IfOk result (λ numbers. numbers ≡ ranks 0 marks.now) }
{
    let mut numbers = List::new(alloc);
    let mut next = 0;
    for state in 0..states {
        numbers.push(next)?;
        if is_marked(marks, state) {
            next += 1;
        }
    }
    Ok(numbers)
}

fn keep_states(alloc: Global, states: &[u32], marks: &[bool], numbers: &[u32]) -> Mem<List<u32>>
    ensures { IfOk result (λ kept. kept ≡ kept_states marks.now (λ q. slice_index numbers.now q) states.now) }
{
    let mut kept = List::new(alloc);
    for state in states {
        if is_marked(marks, *state) {
            kept.push(number_of(numbers, *state))?;
        }
    }
    Ok(kept)
}

fn keep_rules(alloc: Global, rules: &[Rule], marks: &[bool], numbers: &[u32]) -> Mem<List<Rule>>
    ensures { IfOk result (λ kept. kept ≡ kept_rules marks.now (λ q. slice_index numbers.now q) rules.now) }
{
    let mut kept = List::new(alloc);
    for rule in rules {
        if is_kept(marks, rule) {
            let rule = with_numbers(alloc, rule, numbers)?;
            kept.push(rule)?;
        }
    }
    Ok(kept)
}

fn is_kept(marks: &[bool], rule: &Rule) -> bool
    ensures { result ≡ keeps marks.now rule.now }
{
    is_marked(marks, rule.state) && are_all_marked(marks, rule.children.as_slice())
}
