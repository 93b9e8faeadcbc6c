// Relations made entry by entry.

ghost use Rattle.std.specs.Prelude.{◌<◌, IfOk};
ghost use Rattle.fore_base.specs.Marks.{MarksOf};
ghost use Rattle.ta_sim.specs.Relations.{AreRowsOf};

use fore_base::list::List;
use fore_base::memory::Mem;
use std::alloc::Global;

/// A relation on numbers, by a test.
pub trait Pairs {
    ghost use Rattle.std.specs.Prelude.{◌↔◌, ℕ, IsTrue};

    /// The first number is related to the second.
    ghost relates: { Self → ℕ → ℕ → Type 0 };

    /// Whether `left` is related to `right`.
    fn is_related(&self, left: u32, right: u32) -> bool
        ensures { IsTrue result ↔ relates self.now left right };
}

/// The rows of the relation on the numbers below `size`.
///
/// # Errors
///
/// Want of memory.
pub fn rows_of<P: Pairs>(alloc: Global, pairs: &P, size: u32) -> Mem<List<List<bool>>>
    ensures { IfOk result (AreRowsOf size (P.relates pairs.now)) }
{
    let mut rows = List::new(alloc);
    for left in 0..size {
        let row = row_of(alloc, pairs, size, left)?;
        rows.push(row)?;
    }
    Ok(rows)
}

fn row_of<P: Pairs>(alloc: Global, pairs: &P, size: u32, left: u32) -> Mem<List<bool>>
    ensures { IfOk result (MarksOf size (λ right. (right < size) × P.relates pairs.now left right)) }
{
    let mut row = List::new(alloc);
    for right in 0..size {
        row.push(pairs.is_related(left, right))?;
    }
    Ok(row)
}
