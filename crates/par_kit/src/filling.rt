// Rows that are filled at once.

ghost use Rattle.std.specs.Prelude.{◌⊎◌, ◌<◌, ◌+◌, ◌^◌, ◌≡◌, OnOk, length};
ghost use Rattle.std.specs.Thread.{IsSync};
ghost use Rattle.par_kit.specs.Crews.{IsJobs};
ghost use Rattle.par_kit.specs.Phases.{AreTaken, AreFilled, AreKept};

use crate::crew::Crew;
use crate::gate::Gate;
use crate::sharing::share;
use fore_base::list::List;
use fore_base::memory::Mem;
use std::alloc::Global;
use std::thread::{Threads, join_mut};

/// What fills a row. It is shared between the threads of a phase.
pub trait RowWorker: Sync {
    ghost use Rattle.std.specs.Prelude.{◌≡◌, ◌⊎◌, ℕ, List, Bool, length, OnOk};

    /// Which row, by its index and length, it may be given.
    ghost accepts: { Self → ℕ → ℕ → Type 0 };

    /// What is the row of this index.
    ghost is_row: { Self → ℕ → List Bool → Type 0 };

    /// Fills the row of this index. Its length stays. After want of memory the row is as before, or filled.
    ///
    /// # Errors
    ///
    /// Want of memory.
    fn row(&self, alloc: Global, index: usize, row: &mut List<bool>) -> Mem<()>
        requires { accepts self.now index (length row.old) }
        ensures kept { (length row.new ≡ length row.old) × ((row.new ≡ row.old) ⊎ is_row self.now index row.new) }
        ensures filled { OnOk result (is_row self.now index row.new) };
}

/// Fills each row. After want of memory each row is as before, or filled.
///
/// # Errors
///
/// Want of memory.
pub fn fill_rows<R: Threads + Sync, W: RowWorker, G: Gate>(
    rt: &R,
    alloc: Global,
    rows: &mut [List<bool>],
    worker: &W,
    crew: &Crew<'_, G>,
) -> Mem<()>
    requires jobs { IsJobs crew.now.jobs }
    requires accepted { AreTaken (W.accepts worker.now) 0 rows.old }
    ensures kept { AreKept (W.is_row worker.now) 0 rows.old rows.new }
    ensures filled { OnOk result (AreFilled (W.is_row worker.now) 0 rows.new) }
{
    let pieces = crew.jobs.min(rows.len());
    fill(rt, alloc, worker, crew.gate, 0, pieces, 0, rows)
}

#[cycle(fill)]
fn fill<R: Threads + Sync, W: RowWorker, G: Gate>(
    rt: &R,
    alloc: Global,
    worker: &W,
    gate: &G,
    piece: usize,
    pieces: usize,
    base: usize,
    rows: &mut [List<bool>],
) -> Mem<()>
    requires few { piece + pieces < 2 ^ 32 }
    requires room { base + length rows.old < 2 ^ 64 }
    requires accepted { AreTaken (W.accepts worker.now) base rows.old }
    ensures kept { AreKept (W.is_row worker.now) base rows.old rows.new }
    ensures filled { OnOk result (AreFilled (W.is_row worker.now) base rows.new) }
{
    if pieces < 2 {
        return fill_here(alloc, worker, gate, piece, base, rows);
    }
    let low = pieces / 2;
    let middle = share(rows.len(), pieces, low);
    let (front, back) = rows.split_at_mut(middle);
    fill_both(
        rt,
        alloc,
        worker,
        gate,
        piece,
        low,
        base,
        front,
        piece + low,
        pieces - low,
        base + middle,
        back,
    )
}

#[cycle(fill)]
fn fill_both<R: Threads + Sync, W: RowWorker, G: Gate>(
    rt: &R,
    alloc: Global,
    worker: &W,
    gate: &G,
    piece: usize,
    low: usize,
    base: usize,
    front: &mut [List<bool>],
    next: usize,
    high: usize,
    up: usize,
    back: &mut [List<bool>],
) -> Mem<()>
    requires parts { (0 < low) × (0 < high) }
    requires few { (piece + low < 2 ^ 32) × (next + high < 2 ^ 32) }
    requires room { (base + length front.old < 2 ^ 64) × (up + length back.old < 2 ^ 64) }
    requires front { AreTaken (W.accepts worker.now) base front.old }
    requires back { AreTaken (W.accepts worker.now) up back.old }
    ensures front { AreKept (W.is_row worker.now) base front.old front.new }
    ensures back { AreKept (W.is_row worker.now) up back.old back.new }
    ensures filled { OnOk result (AreFilled (W.is_row worker.now) base front.new
        × AreFilled (W.is_row worker.now) up back.new) }
{
    let mut first = || -> Mem<()>
        requires { IsSync R.row × IsSync W.row × IsSync G.row × (piece + low < 2 ^ 32)
            × (base + length front.now < 2 ^ 64) × AreTaken (W.accepts worker.now) base front.now }
        ensures { AreKept (W.is_row worker.entry.now) base front.entry.now front.exit.now
            × OnOk result (AreFilled (W.is_row worker.entry.now) base front.exit.now) }
    { fill(rt, alloc, worker, gate, piece, low, base, front) };
    let mut second = || -> Mem<()>
        requires { IsSync R.row × IsSync W.row × IsSync G.row × (next + high < 2 ^ 32)
            × (up + length back.now < 2 ^ 64) × AreTaken (W.accepts worker.now) up back.now }
        ensures { AreKept (W.is_row worker.entry.now) up back.entry.now back.exit.now
            × OnOk result (AreFilled (W.is_row worker.entry.now) up back.exit.now) }
    { fill(rt, alloc, worker, gate, next, high, up, back) };
    let (a, b) = join_mut(rt, &mut first, &mut second);
    a?;
    b
}

fn fill_here<W: RowWorker, G: Gate>(
    alloc: Global,
    worker: &W,
    gate: &G,
    piece: usize,
    base: usize,
    rows: &mut [List<bool>],
) -> Mem<()>
    requires room { base + length rows.old < 2 ^ 64 }
    requires accepted { AreTaken (W.accepts worker.now) base rows.old }
    ensures kept { AreKept (W.is_row worker.now) base rows.old rows.new }
    ensures filled { OnOk result (AreFilled (W.is_row worker.now) base rows.new) }
{
    if rows.is_empty() {
        return Ok(());
    }
    gate.enter(piece);
    for index in 0..rows.len() {
        fill_one(alloc, worker, base + index, &mut rows[index])?;
    }
    Ok(())
}

fn fill_one<W: RowWorker>(alloc: Global, worker: &W, index: usize, row: &mut List<bool>) -> Mem<()>
    requires { W.accepts worker.now index (length row.old) }
    ensures kept { (length row.new ≡ length row.old) × ((row.new ≡ row.old) ⊎ W.is_row worker.now index row.new) }
    ensures filled { OnOk result (W.is_row worker.now index row.new) }
{
    worker.row(alloc, index, row)
}
