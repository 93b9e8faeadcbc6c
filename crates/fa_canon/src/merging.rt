// Roots to which one reference leads, merged into the tree that has it.

ghost use Rattle.std.specs.Prelude.{◌<◌, length, IfOk, MatchOption};
ghost use Rattle.fa_merge.specs.Merged.{CanMerge};
ghost use Rattle.fa_canon.specs.inner.Merges.{IsLastMerge, IsRegrouped, NoneMerges};

use fa_merge::{can_merge, merge_root};
use fa_sound::{Sound, count_roots};
use fore_base::memory::Mem;
use std::alloc::Global;

/// The forest with roots merged until none is left that can be, the highest number first. Err is want of memory.
pub fn merge_roots(alloc: Global, forest: &Sound) -> Mem<Sound>
    ensures none { IfOk result (λ made. NoneMerges made.forest) }
    ensures regrouped { IfOk result (IsRegrouped forest.now) }
{
    match last_merge(alloc, forest)? {
        Some(root) => {
            let merged = merge(alloc, forest, root)?;
            merge_others(alloc, merged)
        }
        None => forest.copy(alloc),
    }
}

/// The same of a forest that is not used again, so that it need not be copied.
fn merge_others(alloc: Global, forest: Sound) -> Mem<Sound>
    ensures none { IfOk result (λ made. NoneMerges made.forest) }
    ensures regrouped { IfOk result (IsRegrouped forest) }
{
    let mut merged = forest;
    'merges: while let Some(root) = last_merge(alloc, &merged)? {
        merged = merge(alloc, &merged, root)?;
    }
    Ok(merged)
}

/// The root of the highest number that can be merged.
fn last_merge(alloc: Global, forest: &Sound) -> Mem<Option<u32>>
    ensures { IfOk result (λ found. MatchOption found (NoneMerges forest.now.forest) (IsLastMerge forest.now.forest)) }
{
    let count = count_roots(forest.forest())?;
    for root in (0..count).rev() {
        if can_merge(alloc, forest, root)? {
            return Ok(Some(root));
        }
    }
    Ok(None)
}

/// The forest with the root merged.
fn merge(alloc: Global, forest: &Sound, root: u32) -> Mem<Sound>
    requires { CanMerge forest.now.forest root }
    ensures regrouped { IfOk result (IsRegrouped forest.now) }
    ensures fewer { IfOk result (λ made. length made.forest.autos < length forest.now.forest.autos) }
{
    forest.known();
    let made = merge_root(alloc, forest, root)?;
    Ok(made)
}
