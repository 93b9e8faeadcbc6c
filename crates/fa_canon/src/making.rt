// Canonical forests with the members of a forest.

ghost use Rattle.std.specs.Prelude.{◌≡◌, [], ◌∷◌, List, length, IfOk};
ghost use Rattle.fore_base.specs.Lists.{Every};
ghost use Rattle.par_kit.specs.Crews.{IsJobs};
ghost use Rattle.fa_core.specs.Boxless.{HasNoBoxes};
ghost use Rattle.fa_core.specs.Canonical.{IsCanonical};
ghost use Rattle.fa_core.specs.Covering.{Reduced};
ghost use Rattle.fa_core.specs.Member.{Regroups, RegroupsInto};
ghost use Rattle.fa_core.specs.declared.boxes.BoxDef.{BoxDef};
ghost use Rattle.fa_merge.specs.Reached.{AreAllReached, NeverLeaks};
ghost use Rattle.fa_sound.specs.Unions.{IsUnionOf, forests};
ghost use Rattle.fa_canon.specs.Canonized.{IsSameAlone};
ghost use Rattle.fa_order.specs.Placing.{DoEdgesGive};
ghost use Rattle.fa_canon.specs.inner.Finished.{CanFinish, IsFinished};
ghost use Rattle.fa_canon.specs.inner.Merges.{IsRegrouped, NoneMerges};
ghost use Rattle.fa_canon.specs.inner.Steps.{IsSplitEach};

use crate::choosing::choose_rules;
use crate::cutting::CutKnots;
use crate::merging::merge_roots;
use crate::steps::on_each;
use fa_order::{is_canonical, place_roots, reduce_forest};
use fa_sound::{Sound, count_roots};
use fore_base::list::List;
use fore_base::memory::Mem;
use par_kit::crew::Crew;
use par_kit::gate::Gate;
use std::alloc::Global;
use std::thread::Threads;

/// Canonical forests whose components are reduced, and whose members together are those of the forest, each root of
/// which is reached. A canonical forest gives one, with its targets, its data and the languages of its components. The
/// crew runs 1 to 64 jobs and has no bearing on the answer. Box edges that lead back give something. Err is want of
/// memory.
pub fn canonical<R: Threads + Sync, G: Gate>(
    rt: &R,
    alloc: Global,
    forest: &Sound,
    crew: &Crew<'_, G>,
) -> Mem<List<Sound>>
    requires jobs { IsJobs crew.now.jobs }
    requires giving { DoEdgesGive forest.now.face forest.now.forest }
    requires reached { AreAllReached forest.now.face forest.now.forest }
    ensures regroups { IfOk result (λ made. (T : List BoxDef) → Every (Regroups T forest.now.forest) (forests made)) }
    ensures whole { IfOk result (λ made. (T : List BoxDef) → RegroupsInto T forest.now.forest (forests made)) }
    ensures members { IfOk result (λ made. IsUnionOf forest.now.forest (forests made)) }
    ensures canonical { IfOk result (λ made. Every (λ s. IsCanonical s.face s.forest) made) }
    ensures reduced { IfOk result (λ made. Every (λ s. Reduced s.forest) made) }
    ensures plain { Every HasNoBoxes forest.now.forest.autos
        → IfOk result (λ made. Every (λ s. Every HasNoBoxes s.forest.autos) made) }
    ensures reached { IfOk result (λ made. Every (λ s. AreAllReached s.face s.forest) made) }
    ensures tight { IfOk result (λ made. Every (λ s. NeverLeaks s.face s.forest) made) }
    ensures face { IfOk result (λ made. Every (λ s. s.face ≡ forest.now.face) made) }
    ensures vars { IfOk result (λ made. Every (λ s. length s.forest.vars ≡ length forest.now.forest.vars) made) }
    ensures data_vars { IfOk result (λ made. Every (λ s. s.forest.data_vars ≡ forest.now.forest.data_vars) made) }
    ensures same { IsCanonical forest.now.face forest.now.forest
        → IfOk result (λ made. IsSameAlone forest.now.forest (forests made)) }
{
    let made = canonical_forests(rt, alloc, forest, crew)?;
    Ok(made)
}

/// The same, as steps.
fn canonical_forests<R: Threads + Sync, G: Gate>(
    rt: &R,
    alloc: Global,
    forest: &Sound,
    crew: &Crew<'_, G>,
) -> Mem<List<Sound>>
    requires jobs { IsJobs crew.now.jobs }
    requires giving { DoEdgesGive forest.now.face forest.now.forest }
    requires reached { AreAllReached forest.now.face forest.now.forest }
    ensures split { IfOk result (λ made. IsSplitEach IsFinished (forest.now ∷ []) made) }
    ensures same { IsCanonical forest.now.face forest.now.forest
        → IfOk result (λ made. IsSameAlone forest.now.forest (forests made)) }
{
    if is_canonical(alloc, forest)? {
        return reduced_alone(rt, alloc, forest, crew);
    }
    forest.known();
    let merged = merge_roots(alloc, forest)?;
    merged.known();
    made_canonical(rt, alloc, merged, crew)
}

/// A canonical forest, reduced.
fn reduced_alone<R: Threads + Sync, G: Gate>(
    rt: &R,
    alloc: Global,
    forest: &Sound,
    crew: &Crew<'_, G>,
) -> Mem<List<Sound>>
    requires jobs { IsJobs crew.now.jobs }
    requires canonical { IsCanonical forest.now.face forest.now.forest }
    ensures split { IfOk result (λ made. IsSplitEach IsFinished (forest.now ∷ []) made) }
    ensures same { IfOk result (λ made. IsSameAlone forest.now.forest (forests made)) }
{
    let reduced = reduce_forest(rt, alloc, forest, crew)?;
    let mut made = List::new(alloc);
    made.push(reduced)?;
    Ok(made)
}

/// A forest of which no root can be merged, made canonical.
fn made_canonical<R: Threads + Sync, G: Gate>(
    rt: &R,
    alloc: Global,
    forest: Sound,
    crew: &Crew<'_, G>,
) -> Mem<List<Sound>>
    requires jobs { IsJobs crew.now.jobs }
    requires giving { DoEdgesGive forest.face forest.forest }
    requires none { NoneMerges forest.forest }
    requires reached { AreAllReached forest.face forest.forest }
    ensures { IfOk result (λ made. IsSplitEach IsFinished (forest ∷ []) made) }
{
    forest.known();
    let count = count_roots(forest.forest())?;
    let chosen = choose_rules(alloc, forest, 0)?;
    let cut = on_each(alloc, &CutKnots { count }, chosen)?;
    finish_each(rt, alloc, &cut, crew, count)
}

/// Each forest with its roots in order and its components reduced.
fn finish_each<R: Threads + Sync, G: Gate>(
    rt: &R,
    alloc: Global,
    forests: &List<Sound>,
    crew: &Crew<'_, G>,
    count: u32,
) -> Mem<List<Sound>>
    requires jobs { IsJobs crew.now.jobs }
    requires can { Every (CanFinish count) forests.now }
    ensures { IfOk result (λ made. IsSplitEach IsFinished forests.now made) }
{
    let mut made = List::new(alloc);
    for forest in forests.as_slice() {
        let finished = finish(rt, alloc, forest, crew, count)?;
        made.push(finished)?;
    }
    Ok(made)
}

/// The roots of a forest without knots put in order, and its components reduced.
fn finish<R: Threads + Sync, G: Gate>(
    rt: &R,
    alloc: Global,
    forest: &Sound,
    crew: &Crew<'_, G>,
    _count: u32,
) -> Mem<Sound>
    requires jobs { IsJobs crew.now.jobs }
    requires can { CanFinish _count forest.now }
    ensures regrouped { IfOk result (IsRegrouped forest.now) }
    ensures finished { IfOk result (IsFinished forest.now) }
{
    forest.known();
    let placed = place_roots(alloc, forest)?;
    let reduced = reduce_forest(rt, alloc, &placed, crew)?;
    Ok(reduced)
}
