// What the cases of an edge become at a loop head: each is folded until nothing can be folded, regrouped into canonical
// forests of which no two can be joined, and each of these is abstracted to the height and reduced.
ghost use Rattle.std.specs.Prelude.{◌≡◌, [], ◌∷◌, IfOk};
ghost use Rattle.fore_base.specs.Lists.{Every, Paired};
ghost use Rattle.fa_merge.specs.Reached.{AreAllReached};
ghost use Rattle.fa_sound.specs.Soundness.{IsSigned};
ghost use Rattle.fix_core.specs.Follows.{HasItsVars};
ghost use Rattle.fix_successors.specs.Ready.{IsNormal};
ghost use Rattle.fix_successors.specs.inner.Settling.{AreAllSettled, AreNormalForms, IsAbstracted, IsRegrouped};
ghost use Rattle.fix_successors.specs.inner.Settling.{IsSettled};

use crate::task::Task;
use fa_abstract::abstracted;
use fa_back::ranked_insides;
use fa_canon::canonical;
use fa_core::folds::FoldStep;
use fa_fold::fold_all;
use fa_join::join_all;
use fa_sound::Sound;
use fix_core::states::State;
use fore_base::list::{Copies, List};
use fore_base::memory::Mem;
use par_kit::crew::Crew;
use par_kit::gate::NoGate;
use std::alloc::Global;
use std::thread::Threads;

/// What the cases become, one after the other. Err is want of memory.
pub fn settle_all<R: Threads + Sync>(task: &Task<'_, R>, cases: &[Sound]) -> Mem<List<State>>
    requires normal { Every (IsNormal task.now.table task.now.graph) cases.now }
    ensures { IfOk result (AreAllSettled task.now.table task.now.graph task.now.height cases.now) }
{
    let mut states = List::new(task.alloc());
    for middle in cases {
        let more = settle(task, middle)?;
        states.append(more)?;
    }
    Ok(states)
}

/// The states of a case: one for each forest into which it is regrouped.
fn settle<R: Threads + Sync>(task: &Task<'_, R>, middle: &Sound) -> Mem<List<State>>
    requires normal { IsNormal task.now.table task.now.graph middle.now }
    ensures { IfOk result (IsSettled task.now.table task.now.graph task.now.height middle.now) }
{
    let (groups, folds) = regroup(task, middle)?;
    let states = abstracted_states(task, middle, &folds, groups.as_slice())?;
    Ok(states)
}

/// The states of the forests into which a case with these folds was regrouped.
fn abstracted_states<R: Threads + Sync>(
    task: &Task<'_, R>,
    middle: &Sound,
    folds: &List<FoldStep>,
    groups: &[Sound],
) -> Mem<List<State>>
    requires middle { middle.now.face ≡ task.now.table.face }
    requires normal { Every (IsNormal task.now.table task.now.graph) groups.now }
    ensures { IfOk result (Paired
        (IsAbstracted task.now.table task.now.graph task.now.height middle.now folds.now) groups.now) }
{
    let mut states = List::new(task.alloc());
    for group in groups {
        let state = abstracted_state(task, middle, folds, group)?;
        states.push(state)?;
    }
    Ok(states)
}

/// The state of a forest into which a case with these folds was regrouped.
fn abstracted_state<R: Threads + Sync>(
    task: &Task<'_, R>,
    middle: &Sound,
    folds: &List<FoldStep>,
    group: &Sound,
) -> Mem<State>
    requires middle { middle.now.face ≡ task.now.table.face }
    requires normal { IsNormal task.now.table task.now.graph group.now }
    ensures { IfOk result (IsAbstracted task.now.table task.now.graph task.now.height middle.now folds.now group.now) }
{
    task.known();
    let alone = Crew {
        jobs: 1,
        gate: &NoGate,
    };
    let forest = abstracted(task.rt(), task.alloc(), group, task.height(), &alone)?;
    forest.known();
    let middle = middle.copy(task.alloc())?;
    let folds = folds.copy(task.alloc())?;
    Ok(State::settled(forest, middle, folds))
}

/// The case folded and regrouped, and the folds. A case that cannot be folded is canonical as it is.
fn regroup<R: Threads + Sync>(
    task: &Task<'_, R>,
    middle: &Sound,
) -> Mem<(List<Sound>, List<FoldStep>)>
    requires normal { IsNormal task.now.table task.now.graph middle.now }
    ensures { IfOk result (λ made. IsRegrouped task.now.table task.now.graph middle.now made.1 made.0) }
{
    task.known();
    task.table().known();
    ranked_insides(task.table());
    middle.known();
    let (folded, folds) = fold_all(task.alloc(), middle, task.table())?;
    folded.known();
    if folds.is_empty() {
        let groups = alone(task.alloc(), folded)?;
        return Ok((groups, folds));
    }
    let groups = normal_forms(task, &folded)?;
    Ok((groups, folds))
}

/// The forest alone.
fn alone(alloc: Global, forest: Sound) -> Mem<List<Sound>>
    ensures { IfOk result (λ made. made ≡ forest ∷ []) }
{
    let mut made = List::new(alloc);
    made.push(forest)?;
    Ok(made)
}

/// Canonical forests of which no two can be joined, and which have the members of the forest.
fn normal_forms<R: Threads + Sync>(task: &Task<'_, R>, forest: &Sound) -> Mem<List<Sound>>
    requires face { forest.now.face ≡ task.now.table.face }
    requires vars { HasItsVars task.now.graph forest.now.forest }
    requires reached { AreAllReached forest.now.face forest.now.forest }
    ensures { IfOk result (AreNormalForms task.now.table task.now.graph forest.now.forest) }
{
    task.table().known();
    ranked_insides(task.table());
    let alone = Crew {
        jobs: 1,
        gate: &NoGate,
    };
    let forms = canonical(task.rt(), task.alloc(), forest, &alone)?;
    let joined = join_all(task.rt(), task.alloc(), forest.face(), forms, &alone)?;
    all_known(joined.as_slice());
    Ok(joined)
}

/// Does nothing, and says what the forests keep.
fn all_known(forests: &[Sound])
    ensures { Every IsSigned forests.now }
{
    for forest in forests {
        forest.known();
    }
}
