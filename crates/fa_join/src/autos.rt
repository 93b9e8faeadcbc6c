// The automaton that joins two.

ghost use Rattle.std.specs.Prelude.{◌≡◌, ◌<◌, ◌+◌, ◌^◌, length, IfOk};
ghost use Rattle.ta_core.specs.Joined.{united};
ghost use Rattle.ta_core.specs.Single.{HasOneTop};
ghost use Rattle.fa_split.specs.Split.{child_state, top_rule};
ghost use Rattle.fa_join.specs.inner.Joining.{joined, joined_rules, joined_top, of_both};

use fa_split::{copied_rules, one_root, rule_at, rule_at_top, rules_of, state_at, states_of};
use fore_base::list::List;
use fore_base::memory::Mem;
use std::alloc::Global;
use ta_core::auto::{Auto, Rule};
use ta_core::joining::{room, union};

/// The automaton whose one rule at the top has, for the child at the place, the trees that the left one has there and
/// those that the right one has there. Err is want of memory.
pub fn join_autos(alloc: Global, left: &Auto, right: &Auto, place: usize) -> Mem<Auto>
    requires left { HasOneTop left.now }
    requires right { HasOneTop right.now }
    requires left_place { place < length (top_rule left.now).children }
    requires right_place { place < length (top_rule right.now).children }
    ensures { IfOk result (λ made. made ≡ joined left.now right.now place) }
{
    left.known();
    right.known();
    let count = room(left, states_of(right))?;
    let both = union(alloc, left, right)?;
    let states = room(&both, 2)?;
    let roots = one_root(alloc, count)?;
    let mut rules = copied_rules(alloc, &both)?;
    rules.append(more_rules(alloc, left, right, &both, place)?)?;
    Ok(Auto {
        states,
        roots,
        rules,
    })
}

/// The rules behind those of both automata.
fn more_rules(
    alloc: Global,
    left: &Auto,
    right: &Auto,
    both: &Auto,
    place: usize,
) -> Mem<List<Rule>>
    requires left { HasOneTop left.now }
    requires right { HasOneTop right.now }
    requires right_place { child_state right.now place < right.now.states }
    requires both { both.now ≡ united left.now right.now }
    requires fits { left.now.states + right.now.states + 1 < 2 ^ 32 }
    ensures { IfOk result (λ made. made ≡ joined_rules left.now right.now place (left.now.states + right.now.states)) }
{
    let count = states_of(left) + states_of(right);
    let mut rules = List::new(alloc);
    rules.push(joined_top(alloc, left, place, count)?)?;
    let to = state_at(right, place) + states_of(left);
    rules.append(rules_at(alloc, rules_of(both), state_at(left, place), to, count + 1)?)?;
    Ok(rules)
}

/// The rule at the top, at this state, with the next one for the child at the place.
fn joined_top(alloc: Global, auto: &Auto, place: usize, state: u32) -> Mem<Rule>
    requires top { HasOneTop auto.now }
    requires fits { state + 1 < 2 ^ 32 }
    ensures { IfOk result (λ made. made ≡ joined_top auto.now place state) }
{
    let mut rule = rule_at(alloc, rule_at_top(auto), state)?;
    rule.children.set_within(place, state + 1);
    Ok(rule)
}

/// The rules of two states, at another one.
fn rules_at(alloc: Global, rules: &[Rule], first: u32, second: u32, to: u32) -> Mem<List<Rule>>
    ensures { IfOk result (λ made. made ≡ of_both to first second rules.now) }
{
    let mut made = List::new(alloc);
    for rule in rules {
        if rule.state == first || rule.state == second {
            made.push(rule_at(alloc, rule, to)?)?;
        }
    }
    Ok(made)
}
