// The kept forests of some nodes, and whether one of them covers another.

ghost use Rattle.std.specs.Prelude.{◌<◌, length, IfOk};
ghost use Rattle.fore_base.specs.Lists.{Every, Paired};
ghost use Rattle.par_kit.specs.Crews.{IsJobs};
ghost use Rattle.fa_pool.specs.Pools.{IsKeptIn};
ghost use Rattle.fa_kept.specs.Memos.{Agrees};
ghost use Rattle.fix_core.specs.inner.Holding.{IsCoveredBy, IsForestOf};

use crate::held::HeldNode;
use fa_kept::{Memo, first_kept};
use fa_pool::{Kept, Pool};
use fore_base::list::{Copies, List};
use fore_base::memory::Mem;
use par_kit::crew::Crew;
use par_kit::gate::Gate;
use std::alloc::Global;
use std::thread::Threads;

/// The kept forests of the nodes of these numbers, in memory of their own. Err is want of memory.
pub fn forests_of(alloc: Global, nodes: &List<HeldNode>, numbers: &[u32]) -> Mem<List<Kept>>
    requires { Every (λ n. n < length nodes.now) numbers.now }
    ensures { IfOk result (Paired (IsForestOf nodes.now) numbers.now) }
{
    let mut forests = List::new(alloc);
    for number in numbers {
        let forest = nodes.at(*number as usize).forest.copy(alloc)?;
        forests.push(forest)?;
    }
    Ok(forests)
}

/// Whether one of these kept forests covers this one. The memo agrees with the pool, and still does afterwards. Err is
/// want of memory.
pub fn is_covered_by<R: Threads + Sync, G: Gate>(
    rt: &R,
    alloc: Global,
    pool: &Pool,
    memo: &mut Memo,
    alike: &[Kept],
    forest: &Kept,
    crew: &Crew<'_, G>,
) -> Mem<bool>
    requires jobs { IsJobs crew.now.jobs }
    requires agrees { Agrees memo.old pool.now }
    requires alike { Every (IsKeptIn pool.now) alike.now }
    requires forest { IsKeptIn pool.now forest.now }
    ensures agrees { Agrees memo.new pool.now }
    ensures exact { IfOk result (IsCoveredBy pool.now alike.now forest.now) }
{
    let first = first_kept(rt, alloc, pool, memo, alike, forest, crew)?;
    Ok(first.is_some())
}
