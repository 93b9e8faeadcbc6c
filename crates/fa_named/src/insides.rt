// The insides of boxes.
ghost use Rattle.std.specs.Prelude.{◌≡◌, IfOk, map};
ghost use Rattle.fa_named.specs.Insides as spec;

use crate::named::Known;
use crate::slots::symbol_of;
use crate::states::{below_rules, below_term, bound_from, rule_states};
use fa_written::{PartDraft, RuleDraft};
use fore_base::list::{Copies, List};
use fore_base::memory::Mem;
use fore_base::text::Text;
use std::alloc::{AllocError, Global};
use ta_core::auto::{Auto, Rule};

fn rule_of(alloc: Global, known: &Known, boxes: &[Text], rule: &RuleDraft) -> Mem<Rule>
    ensures { IfOk result (λ r. r ≡ spec.rule_of known.now boxes.now rule.now) }
{
    let symbol = symbol_of(alloc, known, boxes, &rule.term)?;
    let children = below_term(alloc, &rule.term)?;
    Ok(Rule {
        state: rule.state,
        symbol,
        children,
    })
}

fn rules_of(alloc: Global, known: &Known, boxes: &[Text], rules: &[RuleDraft]) -> Mem<List<Rule>>
    ensures { IfOk result (λ made. made ≡ map (spec.rule_of known.now boxes.now) rules.now) }
{
    let mut made = List::new(alloc);
    for rule in rules {
        let next = rule_of(alloc, known, boxes, rule)?;
        made.push(next)?;
    }
    Ok(made)
}

/// How many states a component has.
fn state_count(alloc: Global, part: &PartDraft) -> Mem<u32>
    ensures { IfOk result (λ n. n ≡ spec.state_count part.now) }
{
    let rules = part.rules.as_slice();
    let states = rule_states(alloc, rules)?;
    let below = below_rules(alloc, rules)?;
    let roots = bound_from(0, part.roots.as_slice());
    let count = bound_from(bound_from(roots, states.as_slice()), below.as_slice());
    if count > 4294967295 {
        return Err(AllocError);
    }
    Ok(count as u32)
}

#[tactic(auto, using(crate::proofs::Ranked::ranked))]
fn auto_of(alloc: Global, known: &Known, boxes: &[Text], part: &PartDraft) -> Mem<Auto>
    ensures { IfOk result (λ a. a ≡ spec.auto_of known.now boxes.now part.now) }
{
    let states = state_count(alloc, part)?;
    let roots = part.roots.copy(alloc)?;
    let rules = rules_of(alloc, known, boxes, part.rules.as_slice())?;
    match Auto::from_parts(states, roots, rules) {
        Some(made) => Ok(made),
        None => unreachable!(),
    }
}

/// The automata of components.
pub fn autos_of(
    alloc: Global,
    known: &Known,
    boxes: &[Text],
    parts: &[PartDraft],
) -> Mem<List<Auto>>
    ensures { IfOk result (λ made. made ≡ map (spec.auto_of known.now boxes.now) parts.now) }
{
    let mut made = List::new(alloc);
    for part in parts {
        let next = auto_of(alloc, known, boxes, part)?;
        made.push(next)?;
    }
    Ok(made)
}
