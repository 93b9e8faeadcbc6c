// The greatest upward simulation by a relation.

ghost use Rattle.std.specs.Prelude.{◌≡◌, ◌↔◌, ◌<◌, ℕ, IsTrue, IfOk, OnOk};
ghost use Rattle.fore_base.specs.Marks.{MarksOf};
ghost use Rattle.fore_base.specs.Lists.{Every, IsIn};
ghost use Rattle.par_kit.specs.Crews.{IsJobs};
ghost use Rattle.ta_core.specs.Auto.{Automaton, IsRanked};
ghost use Rattle.ta_core.specs.Simulations.{IsUpward, IsSimulatedUpward, KeepsRoots};
ghost use Rattle.ta_sim.specs.Relations.{AreRowsOf, AreSquare, Holds, Relates};
ghost use Rattle.ta_sim.specs.inner.Using.{AreByChild};
ghost use Rattle.ta_sim.specs.inner.Raising.{AreRelatedBut, IsRaise, IncludesUpward, Raises};

use crate::filling::fill_table;
use crate::grouping::{Use, by_child};
use crate::matching::{Matching, Staying};
use crate::refining::{all_pairs, exchange, renew};
use crate::relation::{Relation, entry_at};
use crate::tabling::{Pairs, rows_of};
use fore_base::list::List;
use fore_base::marks::{is_marked, mark, unmarked};
use fore_base::memory::Mem;
use par_kit::crew::Crew;
use par_kit::gate::Gate;
use std::alloc::Global;
use std::thread::Threads;
use ta_core::auto::Auto;
use ta_core::rounds::{Rounds, settle};

/// The greatest upward simulation by the relation on the automaton's states: it is one, and each one is within it. The
/// crew runs 1 to 64 jobs and has no bearing on the answer.
///
/// # Errors
///
/// Want of memory.
pub fn upward<R: Threads + Sync, G: Gate>(
    rt: &R,
    alloc: Global,
    auto: &Auto,
    down: &Relation,
    crew: &Crew<'_, G>,
) -> Mem<Relation>
    requires jobs { IsJobs crew.now.jobs }
    requires size { down.now.size ≡ auto.now.states }
    ensures size { IfOk result (λ made. made.size ≡ auto.now.states) }
    ensures simulation { IfOk result (λ made. IsUpward auto.now (Holds down.now) (Holds made)) }
    ensures greatest { IfOk result (λ made. (p q : ℕ) → p < auto.now.states → q < auto.now.states
        → IsSimulatedUpward auto.now (Holds down.now) p q → Holds made p q) }
{
    let uses = by_child(alloc, auto.rules.as_slice(), auto.states)?;
    let rows = root_pairs(alloc, auto)?;
    let rows = raised(
        rt,
        alloc,
        auto,
        uses.as_slice(),
        down.rows.as_slice(),
        rows,
        crew,
    )?;
    Ok(Relation {
        size: auto.states,
        rows,
    })
}

/// The same relation as `upward` gives, without a crew.
///
/// # Errors
///
/// Want of memory.
pub fn upward_alone(alloc: Global, auto: &Auto, down: &Relation) -> Mem<Relation>
    requires { down.now.size ≡ auto.now.states }
    ensures size { IfOk result (λ made. made.size ≡ auto.now.states) }
    ensures simulation { IfOk result (λ made. IsUpward auto.now (Holds down.now) (Holds made)) }
    ensures greatest { IfOk result (λ made. (p q : ℕ) → p < auto.now.states → q < auto.now.states
        → IsSimulatedUpward auto.now (Holds down.now) p q → Holds made p q) }
{
    let uses = by_child(alloc, auto.rules.as_slice(), auto.states)?;
    let mut rows = root_pairs(alloc, auto)?;
    let raising = Raising {
        alloc,
        auto,
        uses: uses.as_slice(),
        down: down.rows.as_slice(),
    };
    settle(&raising, &mut rows)?;
    Ok(Relation {
        size: auto.states,
        rows,
    })
}

/// Two states are related unless the first is a root state and the second is none.
#[derive(Clone, Copy)]
struct RootPairs<'a> {
    roots: &'a [bool],
}

impl Pairs for RootPairs<'_> {
    ghost use Rattle.fore_base.specs.Marks.{IsMarked};

    ghost relates = { λ r p q. IsMarked r.roots.now p → IsMarked r.roots.now q };

    fn is_related(&self, left: u32, right: u32) -> bool {
        !is_marked(self.roots, left) || is_marked(self.roots, right)
    }
}

/// Rows that relate root states to root states, and each other state to all.
fn root_pairs(alloc: Global, auto: &Auto) -> Mem<List<List<bool>>>
    ensures { IfOk result (AreRowsOf auto.now.states (λ p q. IsIn p auto.now.roots → IsIn q auto.now.roots)) }
{
    let marks = marks_of(alloc, auto.states, auto.roots.as_slice())?;
    let pairs = RootPairs {
        roots: marks.as_slice(),
    };
    rows_of(alloc, &pairs, auto.states)
}

/// A mark for each of the states.
fn marks_of(alloc: Global, count: u32, states: &[u32]) -> Mem<List<bool>>
    requires { Every (λ q. q < count) states.now }
    ensures { IfOk result (MarksOf count (λ q. IsIn q states.now)) }
{
    let mut marks = unmarked(alloc, count as usize)?;
    for state in states {
        mark(&mut marks, *state);
    }
    Ok(marks)
}

/// A use of a state is matched by one at the same place of a rule with the same symbol, whose other children are
/// related by the relation from below, and whose state by the rows.
#[derive(Clone, Copy)]
struct ByOthers<'a> {
    down: &'a [List<bool>],
    rows: &'a [List<bool>],
}

impl Matching<Use> for ByOthers<'_> {
    ghost use Rattle.ta_sim.specs.inner.Raising.{IsRaise};

    ghost matches = { λ m. IsRaise m.down.now m.rows.now };

    fn is_match(&self, item: &Use, other: &Use) -> bool {
        is_raise(self.down, self.rows, item, other)
    }
}

fn is_raise(down: &[List<bool>], rows: &[List<bool>], item: &Use, other: &Use) -> bool
    ensures { IsTrue result ↔ IsRaise down.now rows.now item.now other.now }
{
    other.place == item.place
        && entry_at(rows, item.rule.state, other.rule.state)
        && other.rule.symbol.is_same(&item.rule.symbol)
        && are_related_but(
            down,
            item.place,
            item.rule.children.as_slice(),
            other.rule.children.as_slice(),
        )
}

/// Whether the states are as many on the left as on the right, and the rows relate those in each place but one.
fn are_related_but(rows: &[List<bool>], except: usize, left: &[u32], right: &[u32]) -> bool
    ensures { IsTrue result ↔ AreRelatedBut rows.now except left.now right.now }
{
    if left.len() != right.len() {
        return false;
    }
    for (place, state) in left.iter().enumerate() {
        if place != except && !entry_at(rows, *state, right[place]) {
            return false;
        }
    }
    true
}

/// What takes pairs away from rows.
#[derive(Clone, Copy)]
struct Raising<'a> {
    alloc: Global,
    auto: &'a Auto,
    uses: &'a [List<Use>],
    down: &'a [List<bool>],
}

impl Rounds<List<List<bool>>> for Raising<'_> {
    ghost use Rattle.ta_core.specs.Simulations.{IsUpward, KeepsRoots};
    ghost use Rattle.ta_sim.specs.Relations.{AreSquare, Relates};
    ghost use Rattle.ta_sim.specs.inner.Raising.{IncludesUpward};
    ghost use Rattle.ta_sim.specs.inner.Refining.{pair_count};
    ghost use Rattle.ta_sim.specs.inner.Using.{AreByChild};

    ghost keeps = { λ r rows. AreByChild r.auto.now.rules r.auto.now.states r.uses.now
        × AreSquare r.auto.now.states r.down.now × AreSquare r.auto.now.states rows
        × KeepsRoots r.auto.now (Relates rows) × IncludesUpward r.auto.now r.down.now rows };

    ghost is_settled = { λ r rows. IsUpward r.auto.now (Relates r.down.now) (Relates rows) };

    ghost left = { λ r rows. pair_count rows };

    fn round(&self, rows: &mut List<List<bool>>) -> Mem<bool> {
        raise(self.alloc, self.auto, self.uses, self.down, rows)
    }
}

/// Takes away each pair of which the second state has no use that matches one of the first, by the relation as it was,
/// and says whether there was one.
fn raise(
    alloc: Global,
    auto: &Auto,
    uses: &[List<Use>],
    down: &[List<bool>],
    rows: &mut List<List<bool>>,
) -> Mem<bool>
    requires used { AreByChild auto.now.rules auto.now.states uses.now }
    requires square { AreSquare auto.now.states rows.old }
    ensures square { AreSquare auto.now.states rows.new }
    ensures roots { KeepsRoots auto.now (Relates rows.old) → KeepsRoots auto.now (Relates rows.new) }
    ensures includes { IncludesUpward auto.now down.now rows.old → IncludesUpward auto.now down.now rows.new }
    ensures raises { KeepsRoots auto.now (Relates rows.old) → IfOk result (Raises auto.now down.now rows.old rows.new) }
{
    let matching = ByOthers {
        down,
        rows: rows.as_slice(),
    };
    let staying = Staying {
        matching: &matching,
        groups: uses,
        rows: rows.as_slice(),
    };
    let next = rows_of(alloc, &staying, auto.states)?;
    let changed = renew(rows, next);
    Ok(changed)
}

/// The rows of the greatest upward simulation, from rows that include it: pairs are taken away until none is.
fn raised<R: Threads + Sync, G: Gate>(
    rt: &R,
    alloc: Global,
    auto: &Auto,
    uses: &[List<Use>],
    down: &[List<bool>],
    rows: List<List<bool>>,
    crew: &Crew<'_, G>,
) -> Mem<List<List<bool>>>
    requires jobs { IsJobs crew.now.jobs }
    requires used { AreByChild auto.now.rules auto.now.states uses.now }
    requires square { AreSquare auto.now.states rows }
    requires roots { KeepsRoots auto.now (Relates rows) }
    requires includes { IncludesUpward auto.now down.now rows }
    ensures square { IfOk result (AreSquare auto.now.states) }
    ensures includes { IfOk result (IncludesUpward auto.now down.now) }
    ensures simulation { IfOk result (λ made. IsUpward auto.now (Relates down.now) (Relates made)) }
{
    let mut rows = rows.into_vec();
    let mut next = all_pairs(alloc, auto.states)?.into_vec();
    'rounds: while raise_by(rt, alloc, auto, uses, down, &mut rows, &mut next, crew)? {}
    Ok(List::from_vec(rows))
}

/// As `raise`, by the crew. The rows are filled in the place of `next`, which then has those as they were.
fn raise_by<R: Threads + Sync, G: Gate>(
    rt: &R,
    alloc: Global,
    auto: &Auto,
    uses: &[List<Use>],
    down: &[List<bool>],
    rows: &mut Vec<List<bool>>,
    next: &mut Vec<List<bool>>,
    crew: &Crew<'_, G>,
) -> Mem<bool>
    requires jobs { IsJobs crew.now.jobs }
    requires used { AreByChild auto.now.rules auto.now.states uses.now }
    requires square { AreSquare auto.now.states rows.old.items }
    requires next { AreSquare auto.now.states next.old.items }
    requires roots { KeepsRoots auto.now (Relates rows.old.items) }
    ensures square { OnOk result (AreSquare auto.now.states rows.new.items × AreSquare auto.now.states next.new.items) }
    ensures roots { OnOk result (KeepsRoots auto.now (Relates rows.new.items)) }
    ensures includes { OnOk result (IncludesUpward auto.now down.now rows.old.items
        → IncludesUpward auto.now down.now rows.new.items) }
    ensures raises { IfOk result (Raises auto.now down.now rows.old.items rows.new.items) }
{
    let matching = ByOthers {
        down,
        rows: rows.as_slice(),
    };
    let staying = Staying {
        matching: &matching,
        groups: uses,
        rows: rows.as_slice(),
    };
    fill_table(rt, alloc, &staying, auto.states, next, crew)?;
    let changed = exchange(rows, next);
    Ok(changed)
}
