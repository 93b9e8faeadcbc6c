// Canonical forests abstracted by height and reduced.

ghost use Rattle.std.specs.Prelude.{◌≡◌, ◌≤◌, List, IfOk};
ghost use Rattle.fore_base.specs.Lists.{Every};
ghost use Rattle.fore_base.specs.declared.shape.Shape.{Shape};
ghost use Rattle.fore_base.specs.declared.store.Store.{Store};
ghost use Rattle.par_kit.specs.Crews.{IsJobs};
ghost use Rattle.ta_core.specs.Auto.{IsRanked};
ghost use Rattle.fa_core.specs.Boxless.{HasNoBoxes};
ghost use Rattle.fa_core.specs.Canonical.{IsCanonical};
ghost use Rattle.fa_core.specs.Covering.{Reduced};
ghost use Rattle.fa_core.specs.Member.{Stands};
ghost use Rattle.fa_core.specs.declared.boxes.BoxDef.{BoxDef};
ghost use Rattle.fa_abstract.specs.Abstractions.{IsAbstraction};

use crate::laws::quotients_keep_canonical;
use fa_core::laws::covered_members;
use fa_height::abstract_height;
use fa_order::reduce_forest;
use fa_sound::Sound;
use fore_base::memory::Mem;
use par_kit::crew::Crew;
use par_kit::gate::Gate;
use std::alloc::Global;
use std::thread::Threads;
use ta_core::auto::Auto;

/// The forest abstracted by a height of at least 1, with its components reduced: it is canonical again, and each member
/// of the forest is one of it. The forest is canonical and reduced. The crew runs 1 to 64 jobs and has no bearing on
/// the answer.
///
/// # Errors
///
/// Want of memory.
pub fn abstracted<R: Threads + Sync, G: Gate>(
    rt: &R,
    alloc: Global,
    forest: &Sound,
    height: u32,
    crew: &Crew<'_, G>,
) -> Mem<Sound>
    requires jobs { IsJobs crew.now.jobs }
    requires canonical { IsCanonical forest.now.face forest.now.forest }
    requires reduced { Reduced forest.now.forest }
    requires height { 1 ≤ height }
    ensures abstraction { IfOk result
        (λ made. IsAbstraction forest.now.face.boxes forest.now.forest
        height made.forest) }
    ensures canonical { IfOk result (λ made. IsCanonical made.face made.forest) }
    ensures reduced { IfOk result (λ made. Reduced made.forest) }
    ensures members { IfOk result
        (λ made. (hs : List Shape) (T : List BoxDef) (s : Store) → Stands hs T forest.now.forest s
        → Stands hs T made.forest s) }
    ensures face { IfOk result (λ made. made.face ≡ forest.now.face) }
    ensures plain { Every HasNoBoxes forest.now.forest.autos
        → IfOk result (λ made. Every HasNoBoxes made.forest.autos) }
    ensures vars { IfOk result (λ made. made.forest.vars ≡ forest.now.forest.vars) }
    ensures data { IfOk result (λ made. made.forest.data_vars ≡ forest.now.forest.data_vars) }
{
    covered_members();
    quotients_keep_canonical();
    forest.known();
    ranked_autos(forest.forest().autos.as_slice());
    let middle = abstract_height(alloc, forest, height)?;
    let made = reduce_forest(rt, alloc, &middle, crew)?;
    Ok(made)
}

/// Does nothing, and says that each automaton keeps its ranges.
fn ranked_autos(autos: &[Auto])
    ensures { Every IsRanked autos.now }
{
    for auto in autos {
        auto.known();
    }
}
