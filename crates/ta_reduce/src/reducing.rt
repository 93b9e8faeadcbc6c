// Tree automata reduced by simulation.

ghost use Rattle.std.specs.Prelude.{IfOk};
ghost use Rattle.fore_base.specs.Lists.{IsDistinct};
ghost use Rattle.par_kit.specs.Crews.{IsJobs};
ghost use Rattle.ta_core.specs.Language.{InLanguage, HasSameLanguage, IsTrim};
ghost use Rattle.ta_core.specs.Simulations.{AutoReduced};
ghost use Rattle.ta_core.specs.Single.{HasOneTop, HasSameTop};
ghost use Rattle.ta_core.specs.States.{KeepsStates};
ghost use Rattle.ta_core.specs.declared.tree.Tree.{Tree};
ghost use Rattle.ta_reduce.specs.inner.Reduction.{IsGreatest, IsPreorder, IsTight, Preserves};

use crate::classes::{among_firsts, mutual_classes};
use crate::determinism::is_deterministic;
use crate::dropping::without_needless;
use crate::joining::join;
use crate::rooting::with_roots_once;
use fore_base::memory::Mem;
use par_kit::crew::Crew;
use par_kit::gate::Gate;
use std::alloc::Global;
use std::thread::Threads;
use ta_core::auto::Auto;
use ta_core::trimming::trim;
use ta_sim::downward::downward;
use ta_sim::relation::Relation;

/// A reduced automaton with the same language: each of its states takes part in the run of some accepted tree, no two
/// of them simulate each other downward, and no state has a rule of which another rule of its symbol simulates each
/// child. Each of its states has exactly the trees of some state of the argument, and each root state is listed once.
/// Where some tree is accepted, and there is one root state with one rule, however often each is listed, the result has
/// one root state with one rule, each listed once. The crew runs 1 to 64 jobs and has no bearing on the answer.
///
/// # Errors
///
/// Want of memory.
pub fn reduce<R: Threads + Sync, G: Gate>(
    rt: &R,
    alloc: Global,
    auto: &Auto,
    crew: &Crew<'_, G>,
) -> Mem<Auto>
    requires { IsJobs crew.now.jobs }
    ensures language { IfOk result (λ made. HasSameLanguage auto.now made) }
    ensures reduced { IfOk result AutoReduced }
    ensures states { IfOk result (λ made. KeepsStates auto.now made) }
    ensures roots { IfOk result (λ made. IsDistinct made.roots) }
    ensures top { IfOk result (λ made. (t : Tree) → InLanguage auto.now t → HasSameTop auto.now → HasOneTop made) }
{
    auto.known();
    let trimmed = trim(alloc, auto)?;
    trimmed.known();
    let made = reduced(rt, alloc, trimmed, crew)?;
    with_roots_once(alloc, &made)
}

/// The trimmed automaton reduced, its root states as they are listed. One that is deterministic is reduced as it is, so
/// no simulation is computed for it.
fn reduced<R: Threads + Sync, G: Gate>(
    rt: &R,
    alloc: Global,
    auto: Auto,
    crew: &Crew<'_, G>,
) -> Mem<Auto>
    requires jobs { IsJobs crew.now.jobs }
    requires trim { IsTrim auto }
    ensures { IfOk result (λ made. Preserves auto made × AutoReduced made) }
{
    auto.known();
    if is_deterministic(&auto) {
        return Ok(auto);
    }
    let relation = downward(rt, alloc, &auto, crew)?;
    relation.known();
    let tight = tightened(alloc, &auto, &relation)?;
    tight.known();
    let made = trim(alloc, &tight)?;
    made.known();
    Ok(made)
}

/// The automaton with each class of states made one, and then without needless rules. The relation on the classes is
/// that on their first states, so no second one is computed.
fn tightened(alloc: Global, auto: &Auto, relation: &Relation) -> Mem<Auto>
    requires greatest { IsGreatest auto.now relation.now }
    requires preorder { IsPreorder relation.now }
    ensures { IfOk result (λ made. Preserves auto.now made × IsTight made) }
{
    auto.known();
    let classes = mutual_classes(alloc, relation)?;
    let joined = join(alloc, auto, relation, &classes)?;
    joined.known();
    let among = among_firsts(alloc, relation, classes.firsts.as_slice(), joined.states)?;
    among.known();
    without_needless(alloc, &joined, &among)
}
