// The forests of a list, joined until no two of them can be.

ghost use Rattle.std.specs.Prelude.{◌≡◌, ◌≤◌, ◌<◌, ◌+◌, ◌*◌, ◌++◌, ◌∷◌, [], List, length, IfOk, MatchOption, OnOk};
ghost use Rattle.fore_base.specs.Lists.{Every};
ghost use Rattle.par_kit.specs.Crews.{IsJobs};
ghost use Rattle.fa_core.specs.Boxless.{HasNoBoxes};
ghost use Rattle.fa_core.specs.Canonical.{IsCanonical};
ghost use Rattle.fa_core.specs.Covering.{Reduced};
ghost use Rattle.fa_core.specs.Faces.{IsGiving};
ghost use Rattle.fa_core.specs.declared.boxes.BoxDef.{BoxDef};
ghost use Rattle.fa_sound.specs.Soundness.{SoundForest};
ghost use Rattle.fa_sound.specs.Unions.{forests};
ghost use Rattle.fa_join.specs.Joinable.{Joinable, NoneJoinable};
ghost use Rattle.fa_join.specs.Joined.{IsJoined};
ghost use Rattle.fa_join.specs.inner.Differing.{IsPartner};
ghost use Rattle.fa_join.specs.inner.Joining.{IsJoining, IsReady};

use crate::differing::{Difference, compare};
use crate::joining::join;
use fa_core::faces::Face;
use fa_sound::Sound;
use fore_base::list::List;
use fore_base::memory::Mem;
use par_kit::crew::Crew;
use par_kit::gate::Gate;
use std::alloc::Global;
use std::thread::Threads;

/// A forest of a list, by its place, and where it differs from another one with which it can be joined.
#[derive(Clone, Copy, PartialEq, Eq)]
pub struct Partner {
    pub place: usize,
    pub differing: Difference,
}

/// Canonical forests over the face, joined until no two of them can be: each is one of those given, or joins some of
/// them. The dressed forests together stay, each with its targets and data, and the result is canonical and reduced.
/// Boxes that lead back give their output something, as those of each table do. The crew runs 1 to 64 jobs and has no
/// bearing on the answer. Err is want of memory.
pub fn join_all<R: Threads + Sync, G: Gate>(
    rt: &R,
    alloc: Global,
    face: &Face,
    given: List<Sound>,
    crew: &Crew<'_, G>,
) -> Mem<List<Sound>>
    requires jobs { IsJobs crew.now.jobs }
    requires faces { Every (λ s. s.face ≡ face.now) given }
    requires gives { Every IsGiving face.now.boxes }
    requires canonical { Every (λ s. IsCanonical s.face s.forest) given }
    requires reduced { Every (λ s. Reduced s.forest) given }
    ensures joined { IfOk result (λ made. (T : List BoxDef) → IsJoined T (forests given) (forests made)) }
    ensures apart { IfOk result (λ made. NoneJoinable face.now.boxes (forests made)) }
    ensures canonical { IfOk result (λ made. Every (λ s. IsCanonical s.face s.forest) made) }
    ensures reduced { IfOk result (λ made. Every (λ s. Reduced s.forest) made) }
    ensures plain { Every (λ s. Every HasNoBoxes s.forest.autos) given
        → IfOk result (λ made. Every (λ s. Every HasNoBoxes s.forest.autos) made) }
    ensures faces { IfOk result (λ made. Every (λ s. s.face ≡ face.now) made) }
    ensures fewer { IfOk result (λ made. length made ≤ length given) }
{
    let mut todo = given;
    let mut done = List::new(alloc);
    'forests: while let Some(next) = todo.pop() {
        settle(rt, alloc, face, next, &mut todo, &mut done, crew)?;
    }
    Ok(done)
}

/// Takes up the next forest: joins it with one of those done, which is to do then, or adds it to them.
fn settle<R: Threads + Sync, G: Gate>(
    rt: &R,
    alloc: Global,
    face: &Face,
    next: Sound,
    todo: &mut List<Sound>,
    done: &mut List<Sound>,
    crew: &Crew<'_, G>,
) -> Mem<()>
    requires jobs { IsJobs crew.now.jobs }
    requires next { IsReady face.now next }
    requires done { Every (IsReady face.now) done.old }
    requires gives { Every IsGiving face.now.boxes }
    ensures joining { OnOk result ((given : List SoundForest)
        → IsJoining face.now given (todo.old ++ next ∷ []) done.old → IsJoining face.now given todo.new done.new) }
    ensures fewer { OnOk result (2 * length todo.new + length done.new < 2 * length todo.old + length done.old + 2) }
{
    match first_partner(alloc, face, done.as_slice(), &next)? {
        None => done.push(next),
        Some(found) => {
            let other = done.remove(found.place);
            let made = join(rt, alloc, &other, &next, found.differing, crew)?;
            todo.push(made)
        }
    }
}

/// The first of the forests that can be joined with the next one.
fn first_partner(alloc: Global, face: &Face, done: &[Sound], next: &Sound) -> Mem<Option<Partner>>
    requires done { Every (IsReady face.now) done.now }
    requires next { IsReady face.now next.now }
    ensures { IfOk result
        (λ found. MatchOption found (Every (λ s. Joinable face.now.boxes s.forest next.now.forest → ⊥) done.now)
        (IsPartner face.now.boxes done.now next.now.forest)) }
{
    for (place, forest) in done.iter().enumerate() {
        if let Some(differing) = compare(alloc, forest, next)? {
            return Ok(Some(Partner { place, differing }));
        }
    }
    Ok(None)
}
