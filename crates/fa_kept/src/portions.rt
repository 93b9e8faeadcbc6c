// The first kept forest that covers, looked for in portions of neighbours.

ghost use Rattle.std.specs.Prelude.{◌≡◌, ◌<◌, ◌≤◌, List, length, Some, slice_get, IsTrue, IfOk};
ghost use Rattle.fore_base.specs.Lists.{Every, Paired};
ghost use Rattle.par_kit.specs.Crews.{IsJobs};
ghost use Rattle.par_kit.specs.Phases.{IsFirst};
ghost use Rattle.ta_core.specs.Auto.{Automaton};
ghost use Rattle.fa_pool.specs.Pools.{IsKeptIn};
ghost use Rattle.fa_kept.specs.Memos.{Agrees};
ghost use Rattle.fa_kept.specs.inner.Asking.{AreRight, IsAsked, IsPassed, passed_one};
ghost use Rattle.fa_kept.specs.inner.Within.{CoversByNumbers};

use crate::asking::{Asked, Asker, Found};
use crate::memo::Memo;
use crate::within::known_cover;
use fa_pool::{Kept, Pool};
use fore_base::list::List;
use fore_base::memory::Mem;
use par_kit::crew::Crew;
use par_kit::gate::Gate;
use par_kit::making::make_all;
use std::alloc::Global;
use std::thread::Threads;

/// How far the first was looked for: so many do not cover, and whether the next one does.
#[derive(Clone, Copy)]
pub struct Passed {
    pub count: usize,
    pub met: bool,
}

/// The least index whose kept forest covers the given one, None exactly where none does. Err is want of memory.
pub fn first_among<R: Threads + Sync, G: Gate>(
    rt: &R,
    alloc: Global,
    pool: &Pool,
    memo: &mut Memo,
    nodes: &[Kept],
    forest: &Kept,
    crew: &Crew<'_, G>,
) -> Mem<Option<usize>>
    requires jobs { IsJobs crew.now.jobs }
    requires agrees { Agrees memo.old pool.now }
    requires nodes { Every (IsKeptIn pool.now) nodes.now }
    requires forest { IsKeptIn pool.now forest.now }
    ensures agrees { Agrees memo.new pool.now }
    ensures first { IfOk result (IsFirst (λ node. CoversByNumbers pool.now node forest.now) nodes.now) }
{
    let mut at = 0;
    'nodes: while at < nodes.len() {
        let (_, rest) = nodes.split_at(at);
        let passed = pass(rt, alloc, pool, memo, rest, forest, crew)?;
        at += passed.count;
        if passed.met {
            return Ok(Some(at));
        }
    }
    Ok(None)
}

/// Passes the first node, if the memo knows whether it covers, and else a portion of neighbours, as many as there are
/// jobs. Err is want of memory.
fn pass<R: Threads + Sync, G: Gate>(
    rt: &R,
    alloc: Global,
    pool: &Pool,
    memo: &mut Memo,
    nodes: &[Kept],
    forest: &Kept,
    crew: &Crew<'_, G>,
) -> Mem<Passed>
    requires some { 0 < length nodes.now }
    requires jobs { IsJobs crew.now.jobs }
    requires agrees { Agrees memo.old pool.now }
    requires nodes { Every (IsKeptIn pool.now) nodes.now }
    requires forest { IsKeptIn pool.now forest.now }
    ensures agrees { Agrees memo.new pool.now }
    ensures passed { IfOk result (IsPassed (λ node. CoversByNumbers pool.now node forest.now) nodes.now) }
{
    match known_cover(memo, first_of(nodes), forest) {
        Some(met) => Ok(passed_one(met)),
        None => ask_portion(rt, alloc, pool, memo, nodes, forest, crew),
    }
}

/// The first node.
fn first_of(nodes: &[Kept]) -> &Kept
    requires { 0 < length nodes.now }
    ensures { slice_get nodes.now 0 ≡ Some result.now }
{
    &nodes[0]
}

/// The first node passed, or met.
fn passed_one(met: bool) -> Passed
    ensures { result ≡ passed_one met }
{
    if met {
        Passed { count: 0, met }
    } else {
        Passed { count: 1, met }
    }
}

/// Asks as many nodes at the front as there are jobs, at once; the memo gets what was found. Err is want of memory.
fn ask_portion<R: Threads + Sync, G: Gate>(
    rt: &R,
    alloc: Global,
    pool: &Pool,
    memo: &mut Memo,
    nodes: &[Kept],
    forest: &Kept,
    crew: &Crew<'_, G>,
) -> Mem<Passed>
    requires some { 0 < length nodes.now }
    requires jobs { IsJobs crew.now.jobs }
    requires agrees { Agrees memo.old pool.now }
    requires nodes { Every (IsKeptIn pool.now) nodes.now }
    requires forest { IsKeptIn pool.now forest.now }
    ensures agrees { Agrees memo.new pool.now }
    ensures passed { IfOk result (IsPassed (λ node. CoversByNumbers pool.now node forest.now) nodes.now) }
{
    let (portion, _) = nodes.split_at(portion_of(crew.jobs, nodes.len()));
    let asked = ask_all(rt, alloc, pool, memo, portion, forest, crew)?;
    remember_all(memo, asked.as_slice())?;
    Ok(passed_of(asked.as_slice()))
}

/// How many nodes a portion has: as many as there are jobs, or all.
fn portion_of(jobs: usize, nodes: usize) -> usize
    requires { (0 < jobs) × (0 < nodes) }
    ensures some { 0 < result }
    ensures within { result ≤ nodes }
{
    if jobs < nodes { jobs } else { nodes }
}

/// Asks each of the nodes. Err is want of memory.
fn ask_all<R: Threads + Sync, G: Gate>(
    rt: &R,
    alloc: Global,
    pool: &Pool,
    memo: &Memo,
    nodes: &[Kept],
    forest: &Kept,
    crew: &Crew<'_, G>,
) -> Mem<List<Asked>>
    requires jobs { IsJobs crew.now.jobs }
    requires agrees { Agrees memo.now pool.now }
    requires nodes { Every (IsKeptIn pool.now) nodes.now }
    requires forest { IsKeptIn pool.now forest.now }
    ensures { IfOk result (Paired (λ node asked. IsAsked pool.now node forest.now asked) nodes.now) }
{
    let asker = Asker { pool, memo, forest };
    make_all(rt, alloc, nodes, &asker, crew)
}

/// How far the first that covers was looked for.
fn passed_of(asked: &[Asked]) -> Passed
    requires { 0 < length asked.now }
    ensures { IsPassed (λ one. IsTrue one.covers) asked.now result }
{
    for (place, one) in asked.iter().enumerate() {
        if one.covers {
            return Passed {
                count: place,
                met: true,
            };
        }
    }
    Passed {
        count: asked.len(),
        met: false,
    }
}

/// Adds to the memo what was found at each node. Err is want of memory, after which it may have some of it.
fn remember_all(memo: &mut Memo, asked: &[Asked]) -> Mem<()>
    ensures { (pool : List Automaton) → Agrees memo.old pool → Every (λ one. AreRight pool one.found) asked.now
        → Agrees memo.new pool }
{
    for one in asked {
        remember(memo, one.found.as_slice())?;
    }
    Ok(())
}

/// Adds to the memo what was found. Err is want of memory, after which it may have some of it.
pub fn remember(memo: &mut Memo, found: &[Found]) -> Mem<()>
    ensures { (pool : List Automaton) → Agrees memo.old pool → AreRight pool found.now → Agrees memo.new pool }
{
    for one in found {
        memo.add(one.narrow, one.wide, one.within)?;
    }
    Ok(())
}
