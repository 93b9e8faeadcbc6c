// Numbers in groups by keys.

ghost use Rattle.std.specs.Prelude.{◌≡◌, OnOk, OnErr, IsSome};
ghost use Rattle.std.specs.BTreeMap.{get};
ghost use Rattle.fa_groups.specs.Grouped.{key_cmp, numbers_of, AreSame, IsJoined};

use fore_base::list::List;
use fore_base::memory::Mem;
use std::alloc::Global;
use std::collections::BTreeMap;

/// The numbers of each group, by its key.
pub type Groups = BTreeMap<(u32, u64), List<u32>>;

/// Takes the number into the group of the key, behind those that it has. Err is want of memory, after which each group
/// has what it had.
pub fn add(alloc: Global, groups: &mut Groups, key: (u32, u64), number: u32) -> Mem<()>
    ensures ok { OnOk result (IsJoined groups.old key number groups.new) }
    ensures err { OnErr result (AreSame groups.old groups.new) }
{
    open(alloc, groups, key)?;
    join(groups, key, number)
}

/// Gives the key a group, where it has none. Err is want of memory.
fn open(alloc: Global, groups: &mut Groups, key: (u32, u64)) -> Mem<()>
    ensures same { AreSame groups.old groups.new }
    ensures ok { OnOk result (IsSome (get key_cmp groups.new key)) }
{
    let has = groups.contains_key(&key);
    if has {
        return Ok(());
    }
    groups.insert(key, List::new(alloc))?;
    Ok(())
}

/// Takes the number into the group that the key has. Err is want of memory.
fn join(groups: &mut Groups, key: (u32, u64), number: u32) -> Mem<()>
    requires { IsSome (get key_cmp groups.old key) }
    ensures ok { OnOk result (IsJoined groups.old key number groups.new) }
    ensures err { OnErr result (AreSame groups.old groups.new) }
{
    match groups.get_mut(&key) {
        Some(group) => group.push(number),
        None => unreachable!(),
    }
}

/// The numbers of the group of the key, in the order in which they joined it; none where there is no such group.
pub fn numbers_of(groups: &Groups, key: (u32, u64)) -> &[u32]
    ensures { result.now ≡ numbers_of groups.now key }
{
    match groups.get(&key) {
        Some(group) => group.as_slice(),
        None => &[],
    }
}
