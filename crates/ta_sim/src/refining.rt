// Rounds that take pairs away from a relation.

ghost use Rattle.std.specs.Prelude.{◌≡◌, ◌↔◌, ◌≢◌, List, replicate, true, false, IsTrue, IfOk};

use fore_base::list::List;
use fore_base::memory::Mem;
use std::alloc::Global;
use std::mem::swap;

/// Rows that relate each two states.
pub fn all_pairs(alloc: Global, states: u32) -> Mem<List<List<bool>>>
    ensures { IfOk result (λ rows. rows ≡ replicate states (replicate states true)) }
{
    let mut rows = List::new(alloc);
    for _state in 0..states {
        let row = List::filled(alloc, true, states as usize)?;
        rows.push(row)?;
    }
    Ok(rows)
}

/// Puts the next rows in the place of the rows, and says whether they differ.
pub fn renew(rows: &mut List<List<bool>>, next: List<List<bool>>) -> bool
    ensures next { rows.new ≡ next }
    ensures same { result ≡ false → rows.old ≡ next }
    ensures differ { result ≡ true → rows.old ≢ next }
{
    let same = are_same(next.as_slice(), rows.as_slice());
    *rows = next;
    !same
}

/// Changes the rows for the next ones, and says whether they differ.
pub fn exchange(rows: &mut Vec<List<bool>>, next: &mut Vec<List<bool>>) -> bool
    ensures rows { (rows.new.items ≡ next.old.items) × (next.new.items ≡ rows.old.items) }
    ensures same { result ≡ false → rows.old.items ≡ next.old.items }
    ensures differ { result ≡ true → rows.old.items ≢ next.old.items }
{
    let same = are_same(rows.as_slice(), next.as_slice());
    swap(rows, next);
    !same
}

fn are_same(left: &[List<bool>], right: &[List<bool>]) -> bool
    ensures { IsTrue result ↔ (left.now ≡ right.now) }
{
    left == right
}
