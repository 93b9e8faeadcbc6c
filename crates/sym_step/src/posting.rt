// One step of a canonical forest along an edge.

ghost use Rattle.std.specs.Prelude.{◌≡◌, ◌≤◌, true, [], ◌∷◌, length, IfOk};
ghost use Rattle.fore_base.specs.Lists.{Every};
ghost use Rattle.par_kit.specs.Crews.{IsJobs};
ghost use Rattle.fa_core.specs.Boxes.{IsTableOf};
ghost use Rattle.fa_core.specs.Boxless.{HasNoBoxes};
ghost use Rattle.fa_core.specs.Canonical.{IsCanonical};
ghost use Rattle.fa_core.specs.Covering.{Reduced};
ghost use Rattle.fa_core.specs.Faces.{IsGiving};
ghost use Rattle.fa_split.specs.Divided.{forests};
ghost use Rattle.fa_join.specs.Joinable.{NoneJoinable};
ghost use Rattle.c_cfg.specs.Ranges.{EdgeFits};
ghost use Rattle.sym_core.specs.Cases.{AllCases, CaseOf, IsTrueBad};
ghost use Rattle.sym_core.specs.Explicit.{IsExplicit};
ghost use Rattle.sym_core.specs.Kept.{Keeps};
ghost use Rattle.sym_core.specs.Quiet.{is_quiet};
ghost use Rattle.sym_step.specs.Posts.{bads, HasAsMany};
ghost use Rattle.sym_step.specs.inner.Opening.{OpensBy};
ghost use Rattle.sym_step.specs.inner.Stepping.{IsThat, SettlesBy};

use crate::dressing::are_dressed;
use crate::opening::{Opened, open_forest};
use crate::posts::Post;
use crate::settling::settle;
use c_cfg::graph::Edge;
use fa_core::table::BoxTable;
use fa_join::join_all;
use fa_sound::Sound;
use fore_base::list::List;
use fore_base::memory::Mem;
use par_kit::crew::Crew;
use par_kit::gate::Gate;
use std::alloc::Global;
use std::thread::Threads;

/// What the edge makes of the members of a canonical forest: each goes on into a member of a `next`, or meets the fault
/// of a Bad in which it stands, or does not pass the edge. Each member of a `next` comes so, and each member of a Bad
/// meets its fault. A quiet edge gives at most one `next`. The crew runs 1 to 64 jobs and has no bearing on the answer.
/// All this is by the insides of the table. Where the forest has no box edge, none of these has one, whatever the
/// table. Err is want of memory.
pub fn post<R: Threads + Sync, G: Gate>(
    rt: &R,
    alloc: Global,
    forest: &Sound,
    edge: &Edge,
    table: &BoxTable,
    crew: &Crew<'_, G>,
) -> Mem<Post>
    requires jobs { IsJobs crew.now.jobs }
    requires canonical { IsCanonical forest.now.face forest.now.forest }
    requires face { forest.now.face ≡ table.now.face }
    requires fits { EdgeFits (length forest.now.forest.vars) (length forest.now.forest.data_vars)
        forest.now.face.shapes.structs
        edge.now }
    ensures all { IfOk result (λ p.
        AllCases forest.now.face table.now.defs forest.now.forest edge.now (forests p.next) (bads p.faults)) }
    ensures keeps { IfOk result (λ p.
        Every (Keeps forest.now.face table.now.defs forest.now.forest edge.now) (forests p.next)) }
    ensures true_cases { IfOk result (λ p.
        Every (CaseOf forest.now.face table.now.defs forest.now.forest edge.now) (forests p.next)) }
    ensures bads { IfOk result (λ p.
        Every (IsTrueBad forest.now.face table.now.defs forest.now.forest edge.now) (bads p.faults)) }
    ensures canonical { IfOk result (λ p. Every (λ s. IsCanonical s.face s.forest) p.next) }
    ensures reduced { IfOk result (λ p. Every (λ s. Reduced s.forest) p.next) }
    ensures plain { Every HasNoBoxes forest.now.forest.autos
        → IfOk result (λ p. Every (λ s. Every HasNoBoxes s.forest.autos) p.next) }
    ensures face { IfOk result (λ p. Every (λ s. s.face ≡ forest.now.face) p.next) }
    ensures vars { IfOk result (λ p. Every (λ s. HasAsMany forest.now.forest s.forest) p.next) }
    ensures apart { IfOk result (λ p. NoneJoinable forest.now.face.boxes (forests p.next)) }
    ensures quiet { is_quiet edge.now.instr ≡ true → IfOk result (λ p. length p.next ≤ 1) }
    ensures bad_plain { Every HasNoBoxes forest.now.forest.autos
        → IfOk result (λ p. Every (λ b. Every HasNoBoxes b.at.forest.autos) p.faults) }
    ensures bad_face { IfOk result (λ p. Every (λ b. b.at.face ≡ forest.now.face) p.faults) }
    ensures bad_vars { IfOk result (λ p. Every (λ b. HasAsMany forest.now.forest b.at.forest) p.faults) }
{
    forest.known();
    table.known();
    let opened = open_forest(alloc, forest, edge, table)?;
    let settled = settle_each(rt, alloc, forest, edge, table, opened, crew)?;
    let made = joined(rt, alloc, forest, edge, table, settled, crew)?;
    Ok(made)
}

/// What the edge makes of the members of the forest by the table, from the forests into which it is split.
fn settle_each<R: Threads + Sync, G: Gate>(
    rt: &R,
    alloc: Global,
    _forest: &Sound,
    edge: &Edge,
    _table: &BoxTable,
    opened: Opened,
    crew: &Crew<'_, G>,
) -> Mem<Post>
    requires jobs { IsJobs crew.now.jobs }
    requires gives { Every IsGiving _forest.now.face.boxes }
    requires canonical { IsCanonical _forest.now.face _forest.now.forest }
    requires fits { EdgeFits (length _forest.now.forest.vars) (length _forest.now.forest.data_vars)
        _forest.now.face.shapes.structs
        edge.now }
    requires table { IsTableOf _forest.now.face _table.now.defs }
    requires opens { OpensBy (IsThat _table.now.defs) _forest.now.face _forest.now.forest edge.now
        (λ H. IsExplicit _forest.now.face.shapes.structs H edge.now.instr) opened }
    requires calm { is_quiet edge.now.instr ≡ true → opened.ready ≡ _forest.now ∷ [] }
    ensures settles { IfOk result (SettlesBy (IsThat _table.now.defs) _forest.now.face _forest.now.forest edge.now) }
    ensures quiet { is_quiet edge.now.instr ≡ true → IfOk result (λ p. length p.next ≤ 1) }
{
    let Opened { ready, faults } = opened;
    let mut next = List::new(alloc);
    let mut faulty = faults;
    for forest in ready.as_slice() {
        let more = settle(rt, alloc, forest, edge, crew)?;
        next.append(more.next)?;
        faulty.append(more.faults)?;
    }
    Ok(Post {
        next,
        faults: faulty,
    })
}

/// The result with the forests joined that can be.
fn joined<R: Threads + Sync, G: Gate>(
    rt: &R,
    alloc: Global,
    forest: &Sound,
    _edge: &Edge,
    _table: &BoxTable,
    settled: Post,
    crew: &Crew<'_, G>,
) -> Mem<Post>
    requires jobs { IsJobs crew.now.jobs }
    requires gives { Every IsGiving forest.now.face.boxes }
    requires settles { SettlesBy (IsThat _table.now.defs) forest.now.face forest.now.forest _edge.now settled }
    ensures settles { IfOk result (SettlesBy (IsThat _table.now.defs) forest.now.face forest.now.forest _edge.now) }
    ensures apart { IfOk result (λ p. NoneJoinable forest.now.face.boxes (forests p.next)) }
    ensures fewer { IfOk result (λ p. length p.next ≤ length settled.next) }
{
    let Post { next, faults } = settled;
    let next = join_all(rt, alloc, forest.face(), next, crew)?;
    are_dressed(next.as_slice());
    Ok(Post { next, faults })
}
