// Whether kept forests cover one, asked with what was answered before, and the answers that were found.

ghost use Rattle.std.specs.Prelude.{IfOk};
ghost use Rattle.fa_pool.specs.Pools.{IsKeptIn};
ghost use Rattle.fa_kept.specs.Memos.{Agrees};
ghost use Rattle.fa_kept.specs.inner.Asking.{IsAsked};

use crate::memo::Memo;
use crate::within::is_covered;
use fa_pool::{Kept, Pool};
use fore_base::list::List;
use fore_base::memory::Mem;
use par_kit::making::Maker;
use std::alloc::Global;

/// An answer of inclusion: whether the language of the automaton of the one number is within that of the other.
#[derive(Drop)]
pub struct Found {
    pub narrow: usize,
    pub wide: usize,
    pub within: bool,
}

/// Whether a kept forest covers another, and the answers of inclusion that were found on the way.
#[derive(Drop)]
pub struct Asked {
    pub covers: bool,
    pub found: List<Found>,
}

/// Asks kept forests whether they cover this one.
#[derive(Drop)]
pub struct Asker<'a> {
    pub pool: &'a Pool,
    pub memo: &'a Memo,
    pub forest: &'a Kept,
}

impl<'a> Maker<Kept, Asked> for Asker<'a> {
    ghost use Rattle.fa_pool.specs.Pools.{IsKeptIn};
    ghost use Rattle.fa_kept.specs.Memos.{Agrees};
    ghost use Rattle.fa_kept.specs.inner.Asking.{IsAsked};

    ghost accepts = { λ asker node.
        Agrees asker.memo.now asker.pool.now × IsKeptIn asker.pool.now asker.forest.now
        × IsKeptIn asker.pool.now node };

    ghost relates = { λ asker node asked. IsAsked asker.pool.now node asker.forest.now asked };

    fn make(&self, alloc: Global, item: &Kept) -> Mem<Asked> {
        ask(alloc, self.pool, self.memo, item, self.forest)
    }
}

/// Asks whether the one kept forest covers the other. Err is want of memory.
pub fn ask(alloc: Global, pool: &Pool, memo: &Memo, wide: &Kept, narrow: &Kept) -> Mem<Asked>
    requires agrees { Agrees memo.now pool.now }
    requires wide { IsKeptIn pool.now wide.now }
    requires narrow { IsKeptIn pool.now narrow.now }
    ensures { IfOk result (IsAsked pool.now wide.now narrow.now) }
{
    let mut found = List::new(alloc);
    let covers = is_covered(alloc, pool, memo, &mut found, wide, narrow)?;
    Ok(Asked { covers, found })
}
