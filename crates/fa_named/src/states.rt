// States: how many there are, and which stand where.
ghost use Rattle.std.specs.Prelude.{◌≡◌, ◌≤◌, ◌++◌, ℕ, false, IfOk, OnOk, length, slice_index_or};
ghost use Rattle.fa_core.specs.Ways.{has};
ghost use Rattle.fa_named.specs.Insides as spec;

use fa_lines::line::{SlotText, Term};
use fa_written::RuleDraft;
use fore_base::list::List;
use fore_base::marks::{mark, unmarked};
use fore_base::memory::Mem;
use std::alloc::Global;

/// The least number that is `least` at least, and above each of the states.
pub fn bound_from(least: usize, states: &[u32]) -> usize
    requires { least ≤ 4294967296 }
    ensures value { result ≡ spec.bound_from least states.now }
    ensures within { result ≤ 4294967296 }
{
    let mut bound = least;
    for state in states {
        let number = *state as usize;
        if bound <= number {
            bound = number + 1;
        }
    }
    bound
}

/// Marks of the states: one that is not among them has none.
pub fn marked(alloc: Global, states: &[u32]) -> Mem<List<bool>>
    ensures { IfOk result (λ marks. (q : ℕ) → slice_index_or marks q false ≡ has q states.now) }
{
    let mut marks = unmarked(alloc, bound_from(0, states))?;
    for state in states {
        mark(&mut marks, *state);
    }
    Ok(marks)
}

fn add_child(states: &mut List<u32>, slot: &SlotText) -> Mem<()>
    ensures { OnOk result (states.new ≡ states.old ++ spec.child_of slot.now) }
{
    match slot {
        SlotText::Field(_, state) | SlotText::Link(_, state) => states.push(*state),
        SlotText::Hook(_) => Ok(()),
    }
}

fn children_of(alloc: Global, slots: &[SlotText]) -> Mem<List<u32>>
    ensures { IfOk result (λ states. states ≡ spec.children_of slots.now) }
{
    let mut states = List::new(alloc);
    for slot in slots {
        add_child(&mut states, slot)?;
    }
    Ok(states)
}

/// The states below a term.
pub fn below_term(alloc: Global, term: &Term) -> Mem<List<u32>>
    ensures { IfOk result (λ states. states ≡ spec.below_term term.now) }
{
    match term {
        Term::Cell { slots, .. } => children_of(alloc, slots.as_slice()),
        Term::Null | Term::Uninit | Term::Dangling | Term::Ref(_) => Ok(List::new(alloc)),
    }
}

/// The states that stand below a cell.
pub fn below_rules(alloc: Global, rules: &[RuleDraft]) -> Mem<List<u32>>
    ensures { IfOk result (λ states. states ≡ spec.below_rules rules.now) }
{
    let mut states = List::new(alloc);
    for rule in rules {
        let more = below_term(alloc, &rule.term)?;
        states.append(more)?;
    }
    Ok(states)
}

/// The states of the rules.
pub fn rule_states(alloc: Global, rules: &[RuleDraft]) -> Mem<List<u32>>
    ensures { IfOk result (λ states. states ≡ spec.rule_states rules.now) }
{
    let mut states = List::new(alloc);
    for rule in rules {
        states.push(rule.state)?;
    }
    Ok(states)
}
