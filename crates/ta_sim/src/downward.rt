// The greatest downward simulation.

ghost use Rattle.std.specs.Prelude.{◌≡◌, ◌↔◌, ◌<◌, ℕ, List, IsTrue, IfOk, OnOk};
ghost use Rattle.fore_base.specs.Lists.{Every};
ghost use Rattle.par_kit.specs.Crews.{IsJobs};
ghost use Rattle.ta_core.specs.Auto.{IsRankedRule};
ghost use Rattle.ta_core.specs.Simulations.{IsDownward, IsSimulated};
ghost use Rattle.ta_sim.specs.Relations.{AreSquare, Holds, Relates};
ghost use Rattle.ta_sim.specs.inner.Matching.{AreByState, IsMatch};
ghost use Rattle.ta_sim.specs.inner.Refining.{Includes, Refines};

use crate::filling::fill_table;
use crate::grouping::by_state;
use crate::matching::{Matching, Staying};
use crate::refining::{all_pairs, exchange};
use crate::relation::{Relation, are_related};
use fore_base::list::List;
use fore_base::memory::Mem;
use par_kit::crew::Crew;
use par_kit::gate::Gate;
use std::alloc::Global;
use std::thread::Threads;
use ta_core::auto::{Auto, Rule};

/// The greatest downward simulation on the automaton's states: it is a simulation, and each simulation is within it.
/// The crew runs 1 to 64 jobs and has no bearing on the answer.
///
/// # Errors
///
/// Want of memory.
pub fn downward<R: Threads + Sync, G: Gate>(
    rt: &R,
    alloc: Global,
    auto: &Auto,
    crew: &Crew<'_, G>,
) -> Mem<Relation>
    requires { IsJobs crew.now.jobs }
    ensures size { IfOk result (λ made. made.size ≡ auto.now.states) }
    ensures simulation { IfOk result (λ made. IsDownward auto.now.rules (Holds made)) }
    ensures greatest { IfOk result
        (λ made. (p q : ℕ) → p < auto.now.states → q < auto.now.states → IsSimulated auto.now.rules p q
        → Holds made p q) }
{
    let rules = auto.rules.as_slice();
    let groups = by_state(alloc, rules, auto.states)?;
    let rows = refined(rt, alloc, rules, groups.as_slice(), auto.states, crew)?;
    Ok(Relation {
        size: auto.states,
        rows,
    })
}

/// A rule is matched by one with its symbol, and with children to which the rows relate its own.
#[derive(Clone, Copy)]
struct ByChildren<'a> {
    rows: &'a [List<bool>],
}

impl Matching<Rule> for ByChildren<'_> {
    ghost use Rattle.ta_sim.specs.inner.Matching.{IsMatch};

    ghost matches = { λ m. IsMatch m.rows.now };

    fn is_match(&self, rule: &Rule, other: &Rule) -> bool {
        is_rule_match(self.rows, rule, other)
    }
}

fn is_rule_match(rows: &[List<bool>], rule: &Rule, other: &Rule) -> bool
    ensures { IsTrue result ↔ IsMatch rows.now rule.now other.now }
{
    other.symbol.is_same(&rule.symbol)
        && are_related(rows, rule.children.as_slice(), other.children.as_slice())
}

/// The rows of the greatest downward simulation: pairs are taken away until none is.
fn refined<R: Threads + Sync, G: Gate>(
    rt: &R,
    alloc: Global,
    rules: &[Rule],
    groups: &[List<Rule>],
    states: u32,
    crew: &Crew<'_, G>,
) -> Mem<List<List<bool>>>
    requires jobs { IsJobs crew.now.jobs }
    requires proper { Every (IsRankedRule states) rules.now }
    requires grouped { AreByState rules.now states groups.now }
    ensures square { IfOk result (AreSquare states) }
    ensures includes { IfOk result (Includes states rules.now) }
    ensures simulation { IfOk result (λ rows. IsDownward rules.now (Relates rows)) }
{
    let mut rows = all_pairs(alloc, states)?.into_vec();
    let mut next = all_pairs(alloc, states)?.into_vec();
    'rounds: while refine(rt, alloc, rules, groups, states, &mut rows, &mut next, crew)? {}
    Ok(List::from_vec(rows))
}

/// Takes away each pair of which the second state has no rule that matches one of the first, by the relation as it was,
/// and says whether there was one. The rows are filled in the place of `next`, which then has those as they were.
fn refine<R: Threads + Sync, G: Gate>(
    rt: &R,
    alloc: Global,
    _rules: &[Rule],
    groups: &[List<Rule>],
    states: u32,
    rows: &mut Vec<List<bool>>,
    next: &mut Vec<List<bool>>,
    crew: &Crew<'_, G>,
) -> Mem<bool>
    requires jobs { IsJobs crew.now.jobs }
    requires proper { Every (IsRankedRule states) _rules.now }
    requires grouped { AreByState _rules.now states groups.now }
    requires square { AreSquare states rows.old.items }
    requires next { AreSquare states next.old.items }
    ensures square { OnOk result (AreSquare states rows.new.items × AreSquare states next.new.items) }
    ensures includes { OnOk result (Includes states _rules.now rows.old.items
        → Includes states _rules.now rows.new.items) }
    ensures refines { IfOk result (Refines _rules.now rows.old.items rows.new.items) }
{
    let matching = ByChildren {
        rows: rows.as_slice(),
    };
    let staying = Staying {
        matching: &matching,
        groups,
        rows: rows.as_slice(),
    };
    fill_table(rt, alloc, &staying, states, next, crew)?;
    let changed = exchange(rows, next);
    Ok(changed)
}
