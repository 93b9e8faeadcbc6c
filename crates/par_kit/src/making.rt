// One product for each item.

ghost use Rattle.std.specs.Prelude.{◌≡◌, ◌<◌, ◌+◌, ◌^◌, ◌++◌, IfOk};
ghost use Rattle.std.specs.Thread.{IsSync, IsSend};
ghost use Rattle.fore_base.specs.Lists.{Every, Paired};
ghost use Rattle.par_kit.specs.Crews.{IsJobs};

use crate::crew::Crew;
use crate::gate::Gate;
use crate::sharing::share;
use fore_base::list::List;
use fore_base::memory::Mem;
use std::alloc::Global;
use std::thread::{Threads, join};

/// What makes a product of an item. It is shared between the threads of a phase.
pub trait Maker<T, U>: Sync {
    /// What it may be given.
    ghost accepts: { Self → T → Type 0 };

    /// What an item and its product have to do with each other.
    ghost relates: { Self → T → U → Type 0 };

    /// Makes the product of the item.
    ///
    /// # Errors
    ///
    /// Want of memory.
    fn make(&self, alloc: Global, item: &T) -> Mem<U>
        requires { accepts self.now item.now }
        ensures { IfOk result (relates self.now item.now) };
}

/// One product for each item, in the order of the items.
///
/// # Errors
///
/// Want of memory. The products that were made are dropped.
pub fn make_all<R: Threads + Sync, T: Sync, U: Send + Drop, M: Maker<T, U>, G: Gate>(
    rt: &R,
    alloc: Global,
    items: &[T],
    maker: &M,
    crew: &Crew<'_, G>,
) -> Mem<List<U>>
    requires jobs { IsJobs crew.now.jobs }
    requires accepted { Every (M.accepts maker.now) items.now }
    ensures { IfOk result (Paired (M.relates maker.now) items.now) }
{
    let pieces = crew.jobs.min(items.len());
    make(rt, alloc, items, maker, crew.gate, 0, pieces)
}

#[cycle(make)]
fn make<R: Threads + Sync, T: Sync, U: Send + Drop, M: Maker<T, U>, G: Gate>(
    rt: &R,
    alloc: Global,
    items: &[T],
    maker: &M,
    gate: &G,
    piece: usize,
    pieces: usize,
) -> Mem<List<U>>
    requires few { piece + pieces < 2 ^ 32 }
    requires accepted { Every (M.accepts maker.now) items.now }
    ensures { IfOk result (Paired (M.relates maker.now) items.now) }
{
    if pieces < 2 {
        return make_here(alloc, items, maker, gate, piece);
    }
    let low = pieces / 2;
    let high = pieces - low;
    let next = piece + low;
    let (front, back) = items.split_at(share(items.len(), pieces, low));
    let (first, second) = join(
        rt,
        || -> Mem<List<U>>
            requires { IsSync R.row × IsSync T.row × IsSend U.row × IsSync M.row × IsSync G.row
                × (piece + low < 2 ^ 32) × Every (M.accepts maker.now) front.now }
            ensures { IfOk result (Paired (M.relates maker.entry.now) front.entry.now) }
        { make(rt, alloc, front, maker, gate, piece, low) },
        || -> Mem<List<U>>
            requires { IsSync R.row × IsSync T.row × IsSend U.row × IsSync M.row × IsSync G.row
                × (next + high < 2 ^ 32) × Every (M.accepts maker.now) back.now }
            ensures { IfOk result (Paired (M.relates maker.entry.now) back.entry.now) }
        { make(rt, alloc, back, maker, gate, next, high) },
    );
    let made = first?;
    let more = second?;
    joined(made, more)
}

/// The products with some more behind them.
fn joined<U: Drop>(made: List<U>, more: List<U>) -> Mem<List<U>>
    ensures { IfOk result (λ all. all ≡ made ++ more) }
{
    let mut all = made;
    all.append(more)?;
    Ok(all)
}

fn make_here<T, U: Drop, M: Maker<T, U>, G: Gate>(
    alloc: Global,
    items: &[T],
    maker: &M,
    gate: &G,
    piece: usize,
) -> Mem<List<U>>
    requires { Every (M.accepts maker.now) items.now }
    ensures { IfOk result (Paired (M.relates maker.now) items.now) }
{
    let mut made = List::new(alloc);
    if items.is_empty() {
        return Ok(made);
    }
    gate.enter(piece);
    for item in items {
        let product = maker.make(alloc, item)?;
        made.push(product)?;
    }
    Ok(made)
}
