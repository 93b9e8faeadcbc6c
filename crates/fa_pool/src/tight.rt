// Lists that take no more room than their items.

ghost use Rattle.std.specs.Prelude.{◌≡◌, IfOk};

use fore_base::list::List;
use fore_base::memory::Mem;
use std::alloc::Global;

/// The items, in a list that has room for them alone. Err is want of memory.
pub fn tight<T: Copy>(alloc: Global, items: &[T]) -> Mem<List<T>>
    ensures { IfOk result (λ list. list ≡ items.now) }
{
    let mut all = Vec::with_capacity(alloc, items.len())?;
    all.extend_from_slice(items)?;
    Ok(List::from_vec(all))
}
