// Tables that say something of some of the states.

ghost use Rattle.std.specs.Prelude.{◌≡◌, None, replicate, IfOk};
ghost use Rattle.std.specs.Option.{option_copied};
ghost use Rattle.fa_sound.specs.Entries.{entry, is_known, all_known};

use fore_base::list::List;
use fore_base::memory::Mem;
use std::alloc::Global;

/// A table that says nothing of any state. Err is want of memory.
pub fn no_entries<T: Drop>(alloc: Global, states: u32) -> Mem<List<Option<T>>>
    ensures { IfOk result (λ table. table ≡ replicate states None) }
{
    let mut table = List::new(alloc);
    for _i in 0..states {
        table.push(None)?;
    }
    Ok(table)
}

/// What the table says of the state.
pub fn entry_at<T>(table: &[Option<T>], state: u32) -> Option<&T>
    ensures { option_copied result ≡ entry table.entry.now state }
{
    match table.get(state as usize) {
        Some(Some(entry)) => Some(entry),
        _ => None,
    }
}

/// Whether the table says something of the state.
pub fn is_known<T>(table: &[Option<T>], state: u32) -> bool
    ensures { result ≡ is_known table.now state }
{
    entry_at(table, state).is_some()
}

/// Whether the table says something of each of the states.
pub fn are_known<T>(table: &[Option<T>], states: &[u32]) -> bool
    ensures { result ≡ all_known table.now states.now }
{
    for state in states {
        if !is_known(table, *state) {
            return false;
        }
    }
    true
}
