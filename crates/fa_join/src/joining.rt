// The forest that joins two.

ghost use Rattle.std.specs.Prelude.{◌≡◌, IfOk};
ghost use Rattle.fore_base.specs.Lists.{Every};
ghost use Rattle.par_kit.specs.Crews.{IsJobs};
ghost use Rattle.fa_core.specs.Canonical.{IsCanonical};
ghost use Rattle.fa_core.specs.Faces.{IsGiving};
ghost use Rattle.fa_core.specs.declared.forest.Forest.{Forest};
ghost use Rattle.fa_sound.specs.Components.{component_at};
ghost use Rattle.fa_split.specs.Divided.{HasVarsOf};
ghost use Rattle.fa_split.specs.Split.{CanSplit};
ghost use Rattle.fa_join.specs.Joined.{Joins};
ghost use Rattle.fa_join.specs.inner.Differing.{CanJoin, DifferAtRoot};
ghost use Rattle.fa_join.specs.inner.Joining.{HasNoEdges, IsReady, JoinsBelow, joined};

use crate::autos::join_autos;
use crate::differing::Difference;
use fa_core::forest::Forest;
use fa_order::reduce_forest;
use fa_sound::{Sound, component};
use fore_base::memory::Mem;
use par_kit::crew::Crew;
use par_kit::gate::Gate;
use std::alloc::Global;
use std::thread::Threads;
use ta_core::auto::Auto;

/// The forest that joins the two, of which it is known where they differ. Boxes that lead back give their output
/// something, as those of each table do. Err is want of memory.
pub fn join<R: Threads + Sync, G: Gate>(
    rt: &R,
    alloc: Global,
    left: &Sound,
    right: &Sound,
    differing: Difference,
    crew: &Crew<'_, G>,
) -> Mem<Sound>
    requires jobs { IsJobs crew.now.jobs }
    requires left { IsReady left.now.face left.now }
    requires right { IsReady left.now.face right.now }
    requires gives { Every IsGiving left.now.face.boxes }
    requires can { CanJoin left.now.face.boxes left.now.forest right.now.forest differing }
    ensures ready { IfOk result (IsReady left.now.face) }
    ensures joins { IfOk result (λ made. Joins left.now.forest right.now.forest made.forest) }
    ensures plain { HasNoEdges left.now → HasNoEdges right.now → IfOk result HasNoEdges }
{
    match differing {
        Difference::Nowhere => left.copy(alloc),
        Difference::Child { root, child } => {
            let joined = join_below(alloc, left, right, root, child)?;
            reduced(rt, alloc, &joined, crew)
        }
    }
}

/// The forest whose component at the root has, for the child, the trees of both forests there.
fn join_below(alloc: Global, left: &Sound, right: &Sound, root: u32, child: usize) -> Mem<Sound>
    requires gives { Every IsGiving left.now.face.boxes }
    requires canonical { IsCanonical left.now.face left.now.forest × IsCanonical left.now.face right.now.forest }
    requires face { right.now.face ≡ left.now.face }
    requires alike { HasVarsOf left.now.forest right.now.forest }
    requires differ { DifferAtRoot left.now.face.boxes left.now.forest right.now.forest root child }
    ensures plain { HasNoEdges left.now → HasNoEdges right.now → IfOk result HasNoEdges }
    ensures face { IfOk result (λ made. made.face ≡ left.now.face) }
    ensures canonical { IfOk result (λ made. IsCanonical left.now.face made.forest) }
    ensures joins { IfOk result (λ made. Joins left.now.forest right.now.forest made.forest) }
{
    left.known();
    right.known();
    joined_forest(alloc, left, right, root, child)
}

/// So where it is known what it is.
fn joined_forest(alloc: Global, left: &Sound, right: &Sound, root: u32, child: usize) -> Mem<Sound>
    requires { JoinsBelow left.now.face left.now.forest right.now.forest root child }
    ensures plain { HasNoEdges left.now → HasNoEdges right.now → IfOk result HasNoEdges }
    ensures face { IfOk result (λ made. made.face ≡ left.now.face) }
    ensures canonical { IfOk result (λ made. IsCanonical left.now.face made.forest) }
    ensures joins { IfOk result (λ made. Joins left.now.forest right.now.forest made.forest) }
{
    let auto = joined_auto(alloc, left.forest(), right.forest(), root, child)?;
    let made = left.with_component(alloc, root, auto)?;
    Ok(made)
}

/// The component that joins those of both forests at the root.
fn joined_auto(alloc: Global, left: &Forest, right: &Forest, root: u32, child: usize) -> Mem<Auto>
    requires left { CanSplit left.now root child }
    requires right { CanSplit right.now root child }
    ensures { IfOk result (λ made.
        made ≡ joined (component_at left.now.autos root) (component_at right.now.autos root) child) }
{
    join_autos(alloc, component(left, root), component(right, root), child)
}

/// The forest with its components reduced, which joins what it joined.
fn reduced<R: Threads + Sync, G: Gate>(
    rt: &R,
    alloc: Global,
    forest: &Sound,
    crew: &Crew<'_, G>,
) -> Mem<Sound>
    requires jobs { IsJobs crew.now.jobs }
    requires canonical { IsCanonical forest.now.face forest.now.forest }
    ensures ready { IfOk result (IsReady forest.now.face) }
    ensures joins { IfOk result (λ made. (H K : Forest) → Joins H K forest.now.forest → Joins H K made.forest) }
    ensures plain { HasNoEdges forest.now → IfOk result HasNoEdges }
{
    let made = reduce_forest(rt, alloc, forest, crew)?;
    Ok(made)
}
