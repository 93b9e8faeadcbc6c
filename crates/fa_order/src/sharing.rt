// Whether a root is of kind 1 or 2.

ghost use Rattle.std.specs.Prelude.{◌≡◌, ◌<◌, ◌^◌, ◌||◌, length, nat_le, IfOk, MatchBool};
ghost use Rattle.fore_base.specs.Lists.{Every};
ghost use Rattle.ta_core.specs.Single.{HasOneTop};
ghost use Rattle.fa_core.specs.Ways.{has};
ghost use Rattle.fa_merge.specs.inner.Counted.{sum_count};
ghost use Rattle.fa_order.specs.Kinds.{IsSharedRoot, IsUnsharedRoot};

use crate::referring::root_signatures;
use fa_core::cells::has;
use fa_core::signature::Signature;
use fa_merge::counting::count_marks;
use fa_merge::leaking::var_roots;
use fa_sound::Sound;
use fore_base::memory::Mem;
use std::alloc::Global;

/// Whether the root is of kind 1 or 2: a variable is at it, or there are two references to it. Each component has one
/// root state with one rule. Err is want of memory.
pub fn is_shared_root(alloc: Global, forest: &Sound, root: u32) -> Mem<bool>
    requires { Every HasOneTop forest.now.forest.autos }
    ensures { IfOk result
        (λ yes. MatchBool yes (IsSharedRoot forest.now.forest root) (IsUnsharedRoot forest.now.forest root)) }
{
    let signatures = root_signatures(alloc, forest)?;
    let vars = var_roots(alloc, forest.forest().vars.as_slice())?;
    Ok(is_shared_by(vars.as_slice(), signatures.as_slice(), root))
}

fn is_shared_by(vars: &[u32], signatures: &[Signature], root: u32) -> bool
    requires { length signatures.now < 2 ^ 32 }
    ensures { result ≡ (has root vars.now || nat_le 2 (sum_count root signatures.now)) }
{
    has(root, vars) || 2 <= count_named(signatures, root)
}

/// How many references to the root the signatures stand for, as far as two in each.
fn count_named(signatures: &[Signature], root: u32) -> u64
    requires { length signatures.now < 2 ^ 32 }
    ensures { result ≡ sum_count root signatures.now }
{
    let mut sum: u64 = 0;
    for signature in signatures {
        sum += count_marks(signature.refs.as_slice(), root);
    }
    sum
}
