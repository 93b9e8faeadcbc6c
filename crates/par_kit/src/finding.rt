// The least index that meets a predicate.

ghost use Rattle.std.specs.Prelude.{◌≡◌, ◌↔◌, ◌<◌, ◌+◌, ◌^◌, IsTrue, IfOk};
ghost use Rattle.std.specs.Thread.{IsSync};
ghost use Rattle.fore_base.specs.Lists.{Every};
ghost use Rattle.par_kit.specs.Crews.{IsJobs};
ghost use Rattle.par_kit.specs.Phases.{IsFirst};

use crate::crew::Crew;
use crate::gate::Gate;
use crate::sharing::share;
use fore_base::memory::Mem;
use std::alloc::Global;
use std::thread::{Threads, join};

/// What tests an item. It is shared between the threads of a phase.
pub trait Test<T>: Sync {
    /// What it may be given.
    ghost accepts: { Self → T → Type 0 };

    /// What an item meets where the answer is true.
    ghost meets: { Self → T → Type 0 };

    /// Whether the item meets the predicate.
    ///
    /// # Errors
    ///
    /// Want of memory.
    fn test(&self, alloc: Global, item: &T) -> Mem<bool>
        requires { accepts self.now item.now }
        ensures { IfOk result (λ yes. IsTrue yes ↔ meets self.now item.now) };
}

/// The least index whose item meets the predicate, None exactly where none does.
///
/// # Errors
///
/// Want of memory.
pub fn first_index<R: Threads + Sync, T: Sync, P: Test<T>, G: Gate>(
    rt: &R,
    alloc: Global,
    items: &[T],
    test: &P,
    crew: &Crew<'_, G>,
) -> Mem<Option<usize>>
    requires jobs { IsJobs crew.now.jobs }
    requires accepted { Every (P.accepts test.now) items.now }
    ensures { IfOk result (IsFirst (P.meets test.now) items.now) }
{
    let pieces = crew.jobs.min(items.len());
    find(rt, alloc, items, test, crew.gate, 0, pieces)
}

/// The least index, by so many pieces, of which this is the first one's number.
#[cycle(find)]
fn find<R: Threads + Sync, T: Sync, P: Test<T>, G: Gate>(
    rt: &R,
    alloc: Global,
    items: &[T],
    test: &P,
    gate: &G,
    piece: usize,
    pieces: usize,
) -> Mem<Option<usize>>
    requires few { piece + pieces < 2 ^ 32 }
    requires accepted { Every (P.accepts test.now) items.now }
    ensures { IfOk result (IsFirst (P.meets test.now) items.now) }
{
    if pieces < 2 {
        return find_here(alloc, items, test, gate, piece);
    }
    let low = pieces / 2;
    let high = pieces - low;
    let next = piece + low;
    let (front, back) = items.split_at(share(items.len(), pieces, low));
    let (first, second) = join(
        rt,
        || -> Mem<Option<usize>>
            requires { IsSync R.row × IsSync T.row × IsSync P.row × IsSync G.row
                × (piece + low < 2 ^ 32) × Every (P.accepts test.now) front.now }
            ensures { IfOk result (IsFirst (P.meets test.entry.now) front.entry.now) }
        { find(rt, alloc, front, test, gate, piece, low) },
        || -> Mem<Option<usize>>
            requires { IsSync R.row × IsSync T.row × IsSync P.row × IsSync G.row
                × (next + high < 2 ^ 32) × Every (P.accepts test.now) back.now }
            ensures { IfOk result (IsFirst (P.meets test.entry.now) back.entry.now) }
        { find(rt, alloc, back, test, gate, next, high) },
    );
    match first? {
        Some(index) => Ok(Some(index)),
        None => match second? {
            Some(index) => Ok(Some(front.len() + index)),
            None => Ok(None),
        },
    }
}

/// The least index, on the calling thread. Where there is no item, no piece begins.
fn find_here<T, P: Test<T>, G: Gate>(
    alloc: Global,
    items: &[T],
    test: &P,
    gate: &G,
    piece: usize,
) -> Mem<Option<usize>>
    requires { Every (P.accepts test.now) items.now }
    ensures { IfOk result (IsFirst (P.meets test.now) items.now) }
{
    if items.is_empty() {
        return Ok(None);
    }
    gate.enter(piece);
    for (index, item) in items.iter().enumerate() {
        if test.test(alloc, item)? {
            return Ok(Some(index));
        }
    }
    Ok(None)
}
