// A smallest tree of the language.

ghost use Rattle.std.specs.Prelude.{◌∷◌, ◌++◌, List, [], ℕ, IfOk, MatchOption};
ghost use Rattle.ta_core.specs.Language.{IsBarren, IsSmallest};
ghost use Rattle.ta_core.specs.inner.Sizes.{IsBest};

use crate::auto::Auto;
use crate::growing::tree_at;
use crate::inhabited::is_empty;
use crate::sizes::{least_sizes, less, size_of};
use crate::tree::Tree;
use fore_base::memory::Mem;
use std::alloc::{AllocError, Global};

/// A tree of the language with the fewest nodes, None where the language is empty.
///
/// # Errors
///
/// Want of memory. Each tree that has more nodes than 64 bits count is more than memory holds, so this is the answer
/// where there are only such ones.
pub fn smallest_tree(alloc: Global, auto: &Auto) -> Mem<Option<Tree>>
    ensures { IfOk result (λ found. MatchOption found (IsBarren auto.now) (IsSmallest auto.now)) }
{
    if is_empty(alloc, auto)? {
        return Ok(None);
    }
    let rules = auto.rules.as_slice();
    let sizes = least_sizes(alloc, auto.states, rules)?;
    match best_root(sizes.as_slice(), auto.roots.as_slice()) {
        Some(root) => {
            let tree = tree_at(alloc, rules, sizes.as_slice(), root)?;
            Ok(Some(tree))
        }
        None => Err(AllocError),
    }
}

/// The root state with the least size.
fn best_root(sizes: &[Option<u64>], roots: &[u32]) -> Option<u32>
    ensures { IsBest sizes.now roots.now result }
{
    let mut best = None;
    for root in roots {
        best = better_root(sizes, best, *root);
    }
    best
}

/// The better one of the best state so far and one more.
fn better_root(sizes: &[Option<u64>], best: Option<u32>, root: u32) -> Option<u32>
    ensures { (done : List ℕ) → IsBest sizes.now done best → IsBest sizes.now (done ++ root ∷ []) result }
{
    match best {
        None => {
            if size_of(sizes, root).is_some() {
                Some(root)
            } else {
                None
            }
        }
        Some(old) => {
            if less(size_of(sizes, root), size_of(sizes, old)) {
                Some(root)
            } else {
                Some(old)
            }
        }
    }
}
