// Numbers in lists, one list for each key.

ghost use Rattle.std.specs.Prelude.{OnOk, IsSome};
ghost use Rattle.std.specs.Ordering.{nat_cmp};
ghost use Rattle.std.specs.BTreeMap.{get};
ghost use Rattle.fa_pool.specs.Indexes.{IsListed, MoreListed};

use fore_base::list::List;
use fore_base::memory::Mem;
use std::alloc::Global;
use std::collections::BTreeMap;

/// The lists of numbers by their keys.
pub type Index = BTreeMap<u64, List<usize>>;

/// Adds the number to the list of the key. Err is want of memory, which may leave the key with an empty list.
pub fn add(alloc: Global, index: &mut Index, key: u64, number: usize) -> Mem<()>
    ensures more { MoreListed index.old index.new }
    ensures ok { OnOk result (IsListed index.new key number) }
{
    open(alloc, index, key)?;
    push(index, key, number)
}

/// Gives the key a list, where it has none. Err is want of memory.
fn open(alloc: Global, index: &mut Index, key: u64) -> Mem<()>
    ensures more { MoreListed index.old index.new }
    ensures ok { OnOk result (IsSome (get nat_cmp index.new key)) }
{
    if !index.contains_key(&key) {
        index.insert(key, List::new(alloc))?;
    }
    Ok(())
}

/// Adds the number to the list that the key has. Err is want of memory.
fn push(index: &mut Index, key: u64, number: usize) -> Mem<()>
    requires { IsSome (get nat_cmp index.old key) }
    ensures more { MoreListed index.old index.new }
    ensures ok { OnOk result (IsListed index.new key number) }
{
    match index.get_mut(&key) {
        Some(numbers) => numbers.push(number),
        None => unreachable!(),
    }
}
