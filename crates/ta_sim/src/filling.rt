// Tables of relations that a crew fills, row by row.

ghost use Rattle.std.specs.Prelude.{◌≡◌, ◌<◌, length, OnOk};
ghost use Rattle.fore_base.specs.Marks.{MarksOf};
ghost use Rattle.par_kit.specs.Crews.{IsJobs};
ghost use Rattle.ta_sim.specs.Relations.{AreRowsOf, AreSquare};

use crate::tabling::Pairs;
use fore_base::list::List;
use fore_base::memory::Mem;
use par_kit::crew::Crew;
use par_kit::filling::{RowWorker, fill_rows};
use par_kit::gate::Gate;
use std::alloc::Global;
use std::thread::Threads;

/// What fills the rows of the relation on the numbers below `size`.
#[derive(Clone, Copy)]
struct Filling<'a, P> {
    pairs: &'a P,
    size: u32,
}

impl<P: Pairs + Sync> RowWorker for Filling<'_, P> {
    ghost use Rattle.std.specs.Prelude.{◌≡◌, ◌<◌};
    ghost use Rattle.fore_base.specs.Marks.{MarksOf};

    ghost accepts = { λ f left long. (left < f.size) × (long ≡ f.size) };

    ghost is_row = { λ f left. MarksOf f.size (λ right. (right < f.size) × P.relates f.pairs.now left right) };

    fn row(&self, _alloc: Global, index: usize, row: &mut List<bool>) -> Mem<()> {
        fill_row(self.pairs, self.size, index as u32, row);
        Ok(())
    }
}

fn fill_row<P: Pairs>(pairs: &P, size: u32, left: u32, row: &mut List<bool>)
    requires { length row.old ≡ size }
    ensures { MarksOf size (λ right. (right < size) × P.relates pairs.now left right) row.new }
{
    for right in 0..size {
        row.set(right as usize, pairs.is_related(left, right));
    }
}

/// Fills the table with the rows of the relation on the numbers below `size`, by the crew. Err is want of memory.
pub fn fill_table<R: Threads + Sync, P: Pairs + Sync, G: Gate>(
    rt: &R,
    alloc: Global,
    pairs: &P,
    size: u32,
    table: &mut Vec<List<bool>>,
    crew: &Crew<'_, G>,
) -> Mem<()>
    requires jobs { IsJobs crew.now.jobs }
    requires square { AreSquare size table.old.items }
    ensures square { AreSquare size table.new.items }
    ensures filled { OnOk result (AreRowsOf size (P.relates pairs.now) table.new.items) }
{
    fill_each(rt, alloc, pairs, size, table.as_mut_slice(), crew)
}

fn fill_each<R: Threads + Sync, P: Pairs + Sync, G: Gate>(
    rt: &R,
    alloc: Global,
    pairs: &P,
    size: u32,
    rows: &mut [List<bool>],
    crew: &Crew<'_, G>,
) -> Mem<()>
    requires jobs { IsJobs crew.now.jobs }
    requires square { AreSquare size rows.old }
    ensures square { AreSquare size rows.new }
    ensures filled { OnOk result (AreRowsOf size (P.relates pairs.now) rows.new) }
{
    let filling = Filling { pairs, size };
    fill_rows(rt, alloc, rows, &filling, crew)
}
