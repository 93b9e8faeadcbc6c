// Whether one kept forest covers another, and the first of several that does.

ghost use Rattle.std.specs.Prelude.{◌↔◌, List, IsTrue, IfOk};
ghost use Rattle.fore_base.specs.Lists.{Every, Paired};
ghost use Rattle.par_kit.specs.Crews.{IsJobs};
ghost use Rattle.fa_core.specs.Covering.{Covers};
ghost use Rattle.fa_core.specs.declared.forest.Forest.{Forest};
ghost use Rattle.fa_sound.specs.Soundness.{SoundForest};
ghost use Rattle.fa_cover.specs.Firsts.{FirstCover};
ghost use Rattle.fa_pool.specs.Pools.{ReadsAs, IsKeptIn};
ghost use Rattle.fa_kept.specs.Memos.{Agrees};

use crate::asking::ask;
use crate::memo::Memo;
use crate::portions::{first_among, remember};
use fa_pool::{Kept, Pool};
use fore_base::memory::Mem;
use par_kit::crew::Crew;
use par_kit::gate::Gate;
use std::alloc::Global;
use std::thread::Threads;

/// Whether the forest as which the one kept forest reads covers that of the other. The memo agrees with the pool, and
/// still does afterwards.
///
/// # Errors
///
/// Want of memory; the memo may then have further answers.
pub fn covers_kept(
    alloc: Global,
    pool: &Pool,
    memo: &mut Memo,
    wide: &Kept,
    narrow: &Kept,
) -> Mem<bool>
    requires agrees { Agrees memo.old pool.now }
    requires wide { IsKeptIn pool.now wide.now }
    requires narrow { IsKeptIn pool.now narrow.now }
    ensures agrees { Agrees memo.new pool.now }
    ensures exact { IfOk result (λ yes. (F G : Forest) → ReadsAs pool.now wide.now F → ReadsAs pool.now narrow.now G
        → (IsTrue yes ↔ Covers F G)) }
{
    let asked = ask(alloc, pool, memo, wide, narrow)?;
    remember(memo, asked.found.as_slice())?;
    Ok(asked.covers)
}

/// The least index whose forest covers the given one, None exactly where none does: what `first_cover` answers on the
/// forests as which the kept ones read. The memo agrees with the pool, and still does afterwards. The crew runs 1 to 64
/// jobs, which ask neighbours at once where the memo does not know, and has no bearing on the answer.
///
/// # Errors
///
/// Want of memory; the memo may then have further answers.
pub fn first_kept<R: Threads + Sync, G: Gate>(
    rt: &R,
    alloc: Global,
    pool: &Pool,
    memo: &mut Memo,
    nodes: &[Kept],
    forest: &Kept,
    crew: &Crew<'_, G>,
) -> Mem<Option<usize>>
    requires jobs { IsJobs crew.now.jobs }
    requires agrees { Agrees memo.old pool.now }
    requires nodes { Every (IsKeptIn pool.now) nodes.now }
    requires forest { IsKeptIn pool.now forest.now }
    ensures agrees { Agrees memo.new pool.now }
    ensures first { IfOk result (λ found. (all : List SoundForest) (F : Forest)
        → Paired (λ kept node. ReadsAs pool.now kept node.forest) nodes.now all → ReadsAs pool.now forest.now F
        → FirstCover all F found) }
{
    first_among(rt, alloc, pool, memo, nodes, forest, crew)
}
