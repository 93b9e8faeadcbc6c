// Products of lists: one item of each.

ghost use Rattle.std.specs.Prelude.{◌≡◌, ◌++◌, ◌∷◌, [], map, IfOk};
ghost use Rattle.fa_signatures.specs.inner.CutProducts.{longer, product};

use fore_base::list::{Copies, List};
use fore_base::memory::Mem;
use std::alloc::Global;

/// The lists with one item of each of the options. Err is want of memory.
pub fn product<T: Copies>(alloc: Global, options: &[List<T>]) -> Mem<List<List<T>>>
    ensures { IfOk result (λ lists. lists ≡ product options.now) }
{
    let mut lists = List::new(alloc);
    lists.push(List::new(alloc))?;
    for items in options {
        lists = longer(alloc, lists.as_slice(), items.as_slice())?;
    }
    Ok(lists)
}

/// Each of the lists with each of the items behind it.
fn longer<T: Copies>(alloc: Global, lists: &[List<T>], items: &[T]) -> Mem<List<List<T>>>
    ensures { IfOk result (λ made. made ≡ longer lists.now items.now) }
{
    let mut made = List::new(alloc);
    for list in lists {
        let more = extended(alloc, list, items)?;
        made.append(more)?;
    }
    Ok(made)
}

/// The list with each of the items behind it.
fn extended<T: Copies>(alloc: Global, list: &List<T>, items: &[T]) -> Mem<List<List<T>>>
    ensures { IfOk result (λ made. made ≡ map (λ x. list.now ++ x ∷ []) items.now) }
{
    let mut made = List::new(alloc);
    for item in items {
        let one = with_item(alloc, list, item)?;
        made.push(one)?;
    }
    Ok(made)
}

fn with_item<T: Copies>(alloc: Global, list: &List<T>, item: &T) -> Mem<List<T>>
    ensures { IfOk result (λ made. made ≡ list.now ++ item.now ∷ []) }
{
    let mut made = list.copy(alloc)?;
    let last = item.copy(alloc)?;
    made.push(last)?;
    Ok(made)
}
