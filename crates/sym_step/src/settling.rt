// A forest that shows what an edge needs, taken along the edge.

ghost use Rattle.std.specs.Prelude.{◌≡◌, ◌≤◌, true, [], ◌∷◌, List, length, IfOk};
ghost use Rattle.fore_base.specs.Lists.{Every};
ghost use Rattle.par_kit.specs.Crews.{IsJobs};
ghost use Rattle.fa_core.specs.Boxes.{IsTableOf};
ghost use Rattle.fa_core.specs.Canonical.{IsCanonical};
ghost use Rattle.fa_core.specs.Faces.{IsGiving};
ghost use Rattle.fa_core.specs.Member.{Regroups, RegroupsInto};
ghost use Rattle.fa_core.specs.declared.boxes.BoxDef.{BoxDef};
ghost use Rattle.fa_merge.specs.Reached.{AreAllReached};
ghost use Rattle.fa_split.specs.Divided.{forests};
ghost use Rattle.c_cfg.specs.Edges.{choice_of};
ghost use Rattle.c_cfg.specs.Ranges.{EdgeFits};
ghost use Rattle.sym_core.specs.Carried.{Carries};
ghost use Rattle.sym_core.specs.Explicit.{IsExplicit};
ghost use Rattle.sym_core.specs.Quiet.{is_quiet};
ghost use Rattle.sym_step.specs.inner.Stepping.{IsLike, IsNext, IsStepping, Settles};

use crate::posts::{Bad, Post};
use c_cfg::graph::{Const, Edge, Instr};
use fa_canon::canonical;
use fa_merge::leaking_root;
use fa_order::reduce_forest;
use fa_sound::Sound;
use fore_base::fault::Fault;
use fore_base::list::List;
use fore_base::memory::Mem;
use par_kit::crew::Crew;
use par_kit::gate::Gate;
use std::alloc::Global;
use std::thread::Threads;
use sym_transfer::{Edited, edited};

/// What the edge makes of the members of a forest that shows what it needs. After the edge's own fault comes the leak
/// test. A fault stands at the forest before the edge. Boxes that lead back give their output something. Err is want of
/// memory.
pub fn settle<R: Threads + Sync, G: Gate>(
    rt: &R,
    alloc: Global,
    forest: &Sound,
    edge: &Edge,
    crew: &Crew<'_, G>,
) -> Mem<Post>
    requires jobs { IsJobs crew.now.jobs }
    requires gives { Every IsGiving forest.now.face.boxes }
    requires fits { EdgeFits (length forest.now.forest.vars) (length forest.now.forest.data_vars)
        forest.now.face.shapes.structs
        edge.now }
    requires explicit { IsExplicit forest.now.face.shapes.structs forest.now.forest edge.now.instr }
    requires calm { is_quiet edge.now.instr ≡ true → IsCanonical forest.now.face forest.now.forest }
    ensures settles { IfOk result (Settles forest.now.face forest.now.forest edge.now) }
    ensures quiet { is_quiet edge.now.instr ≡ true → IfOk result (λ p. length p.next ≤ 1) }
{
    let made = edited(alloc, forest, edge)?;
    match made {
        Edited::Fault(fault) => bad_alone(alloc, fault, forest, edge),
        Edited::Stays => Ok(nothing(alloc, forest, edge)),
        Edited::Goes(raw) => settle_edited(rt, alloc, forest, edge, &raw, crew),
    }
}

/// No forest and no fault, where no member goes on.
fn nothing(alloc: Global, _forest: &Sound, _edge: &Edge) -> Post
    requires stays { IsStepping _forest.now.face _forest.now.forest _edge.now [] [] [] }
    ensures settles { Settles _forest.now.face _forest.now.forest _edge.now result }
    ensures next { result.next ≡ [] }
{
    Post {
        next: List::new(alloc),
        faults: List::new(alloc),
    }
}

/// The fault at the forest, each member of which meets it.
fn bad_alone(alloc: Global, fault: Fault, forest: &Sound, _edge: &Edge) -> Mem<Post>
    requires met { IsStepping forest.now.face forest.now.forest _edge.now [] []
        (record { fault = fault; at = forest.now.forest } ∷ []) }
    ensures settles { IfOk result (Settles forest.now.face forest.now.forest _edge.now) }
    ensures few { IfOk result (λ p. length p.next ≤ 1) }
{
    let mut faults = List::new(alloc);
    let at = forest.copy(alloc)?;
    faults.push(Bad { fault, at })?;
    Ok(Post {
        next: List::new(alloc),
        faults,
    })
}

/// What the edge makes of a forest of which this is the edited one: a leak, or canonical forests.
fn settle_edited<R: Threads + Sync, G: Gate>(
    rt: &R,
    alloc: Global,
    forest: &Sound,
    edge: &Edge,
    raw: &Sound,
    crew: &Crew<'_, G>,
) -> Mem<Post>
    requires jobs { IsJobs crew.now.jobs }
    requires gives { Every IsGiving forest.now.face.boxes }
    requires carries { (T : List BoxDef) → IsTableOf forest.now.face T
        → Carries forest.now.face T forest.now.forest raw.now.forest edge.now.instr (choice_of edge.now.choice) }
    requires like { IsLike forest.now.face forest.now.forest raw.now }
    requires calm { is_quiet edge.now.instr ≡ true → IsCanonical raw.now.face raw.now.forest }
    ensures settles { IfOk result (Settles forest.now.face forest.now.forest edge.now) }
    ensures quiet { is_quiet edge.now.instr ≡ true → IfOk result (λ p. length p.next ≤ 1) }
{
    let leaking = leaking_root(alloc, raw)?;
    match leaking {
        Some(_) => bad_alone(alloc, Fault::Leak, forest, edge),
        None => {
            let next = normal_forms(rt, alloc, edge, raw, crew)?;
            Ok(Post {
                next,
                faults: List::new(alloc),
            })
        }
    }
}

/// Canonical and reduced forests with the members of the edited forest. Behind a quiet edge that is canonical itself.
fn normal_forms<R: Threads + Sync, G: Gate>(
    rt: &R,
    alloc: Global,
    edge: &Edge,
    raw: &Sound,
    crew: &Crew<'_, G>,
) -> Mem<List<Sound>>
    requires jobs { IsJobs crew.now.jobs }
    requires gives { Every IsGiving raw.now.face.boxes }
    requires reached { AreAllReached raw.now.face raw.now.forest }
    requires calm { is_quiet edge.now.instr ≡ true → IsCanonical raw.now.face raw.now.forest }
    ensures regroups { IfOk result (λ made. (T : List BoxDef) → Every (Regroups T raw.now.forest) (forests made)) }
    ensures whole { IfOk result (λ made. (T : List BoxDef) → RegroupsInto T raw.now.forest (forests made)) }
    ensures next { IfOk result (Every (IsNext raw.now.face raw.now.forest)) }
    ensures quiet { is_quiet edge.now.instr ≡ true → IfOk result (λ made. length made ≤ 1) }
{
    if is_quiet(&edge.instr) {
        reduced_alone(rt, alloc, raw, crew)
    } else {
        canonical_forms(rt, alloc, raw, crew)
    }
}

/// The canonical forest with its components reduced, alone.
fn reduced_alone<R: Threads + Sync, G: Gate>(
    rt: &R,
    alloc: Global,
    raw: &Sound,
    crew: &Crew<'_, G>,
) -> Mem<List<Sound>>
    requires jobs { IsJobs crew.now.jobs }
    requires canonical { IsCanonical raw.now.face raw.now.forest }
    ensures regroups { IfOk result (λ made. (T : List BoxDef) → Every (Regroups T raw.now.forest) (forests made)) }
    ensures whole { IfOk result (λ made. (T : List BoxDef) → RegroupsInto T raw.now.forest (forests made)) }
    ensures next { IfOk result (Every (IsNext raw.now.face raw.now.forest)) }
    ensures alone { IfOk result (λ made. length made ≡ 1) }
{
    let reduced = reduce_forest(rt, alloc, raw, crew)?;
    let mut made = List::new(alloc);
    made.push(reduced)?;
    Ok(made)
}

/// Canonical forests.
fn canonical_forms<R: Threads + Sync, G: Gate>(
    rt: &R,
    alloc: Global,
    raw: &Sound,
    crew: &Crew<'_, G>,
) -> Mem<List<Sound>>
    requires jobs { IsJobs crew.now.jobs }
    requires gives { Every IsGiving raw.now.face.boxes }
    requires reached { AreAllReached raw.now.face raw.now.forest }
    ensures regroups { IfOk result (λ made. (T : List BoxDef) → Every (Regroups T raw.now.forest) (forests made)) }
    ensures whole { IfOk result (λ made. (T : List BoxDef) → RegroupsInto T raw.now.forest (forests made)) }
    ensures next { IfOk result (Every (IsNext raw.now.face raw.now.forest)) }
{
    let made = canonical(rt, alloc, raw, crew)?;
    Ok(made)
}

/// Whether the edge changes no pointer and splits no cell.
fn is_quiet(instr: &Instr) -> bool
    ensures { result ≡ is_quiet instr.now }
{
    match instr {
        Instr::Kill { ptrs, .. } => ptrs.is_empty(),
        Instr::StoreConst { value, .. } => matches!(value, Const::Known(_)),
        Instr::CopyData { .. }
        | Instr::LoadData { .. }
        | Instr::StoreData { .. }
        | Instr::TestPtr { .. }
        | Instr::TestData { .. }
        | Instr::Choose { .. } => true,
        _ => false,
    }
}
