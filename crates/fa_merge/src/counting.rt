// Which roots can be merged.

ghost use Rattle.std.specs.Prelude.{◌≡◌, ◌≤◌, ◌<◌, ◌*◌, ◌^◌, ◌↔◌, length, IsTrue, IfOk};
ghost use Rattle.fore_base.specs.Lists.{IsIn, Paired};
ghost use Rattle.fa_core.specs.declared.forest.Target.TheVariants.{At};
ghost use Rattle.fa_merge.specs.Merged.{CanMerge};
ghost use Rattle.fa_merge.specs.Counts.{mark_count, marks_count};
ghost use Rattle.fa_merge.specs.inner.Counted.{sum_count};
ghost use Rattle.fa_merge.specs.Signed.{IsSignatureOf};

use crate::merge::is_marked_root;
use crate::signing::{component_signature, component_signatures};
use fa_core::forest::Target;
use fa_core::signature::{RefMark, Signature};
use fa_sound::{Sound, count_roots};
use fore_base::memory::Mem;
use std::alloc::Global;

/// Whether the root can be merged: no variable is at it, and there is exactly one reference to it, which is not in its
/// own tree. Err is want of memory.
pub fn can_merge(alloc: Global, forest: &Sound, root: u32) -> Mem<bool>
    requires { root < length forest.now.forest.autos }
    ensures { IfOk result (λ yes. IsTrue yes ↔ CanMerge forest.now.forest root) }
{
    forest.known();
    if is_target(forest.forest().vars.as_slice(), root) {
        return Ok(false);
    }
    let own = component_signature(alloc, forest, root)?;
    if is_marked_root(own.refs.as_slice(), root) {
        return Ok(false);
    }
    let count = count_roots(forest.forest())?;
    let signatures = component_signatures(alloc, forest, count)?;
    Ok(has_one(signatures.as_slice(), root, count))
}

/// Whether a variable is at the root.
pub fn is_target(vars: &[Target], root: u32) -> bool
    ensures { IsTrue result ↔ IsIn (At root) vars.now }
{
    for target in vars {
        if is_at(target, root) {
            return true;
        }
    }
    false
}

fn is_at(target: &Target, root: u32) -> bool
    ensures { IsTrue result ↔ (target.now ≡ At root) }
{
    match target {
        Target::At(other) => *other == root,
        _ => false,
    }
}

/// Whether there is exactly one reference to the root.
fn has_one(signatures: &[Signature], root: u32, count: u32) -> bool
    requires { length signatures.now ≡ count }
    ensures { IsTrue result ↔ (sum_count root signatures.now ≡ 1) }
{
    let mut sum: u64 = 0;
    for signature in signatures {
        sum += count_marks(signature.refs.as_slice(), root);
    }
    sum == 1
}

/// The references to the root for which the marks stand, as far as two.
pub fn count_marks(marks: &[RefMark], root: u32) -> u64
    ensures value { result ≡ marks_count root marks.now }
    ensures few { result ≤ 2 }
{
    for mark in marks {
        if root == mark.root {
            return count_mark(mark);
        }
    }
    0
}

fn count_mark(mark: &RefMark) -> u64
    ensures value { result ≡ mark_count mark.now }
    ensures few { result ≤ 2 }
{
    if mark.many { 2 } else { 1 }
}
