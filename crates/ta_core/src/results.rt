// What trees are made of or gone through by: results that are taken off the end of a list.

ghost use Rattle.std.specs.Prelude.{◌≡◌, ◌++◌, ◌≤◌, length, reverse, IfOk};

use fore_base::list::List;
use fore_base::memory::Mem;
use std::alloc::Global;

/// So many results, taken off the end, the last one first.
///
/// # Errors
///
/// Want of memory.
pub fn last<R: Drop>(alloc: Global, results: &mut List<R>, count: usize) -> Mem<List<R>>
    requires { count ≤ length results.old }
    ensures long { IfOk result (λ off. length off ≡ count) }
    ensures off { IfOk result (λ off. reverse results.old ≡ off ++ reverse results.new) }
{
    let mut off = List::new(alloc);
    for _i in 0..count {
        match results.pop() {
            Some(result) => off.push(result)?,
            None => unreachable!(),
        }
    }
    Ok(off)
}
