// Roots of sound forests: merged into others, and in another order.

ghost use Rattle.std.specs.Prelude.{◌≡◌, ◌<◌, List, length, map, IfOk, MatchBool, MatchOption};
ghost use Rattle.fore_base.specs.Lists.{Every};
ghost use Rattle.fa_core.specs.Boxless.{HasNoBoxes};
ghost use Rattle.fa_core.specs.Cells.{roots_in};
ghost use Rattle.fa_core.specs.Member.{Regroups};
ghost use Rattle.fa_core.specs.Placed.{placed_leaf};
ghost use Rattle.fa_core.specs.Ways.{has};
ghost use Rattle.fa_core.specs.declared.boxes.BoxDef.{BoxDef};
ghost use Rattle.fa_merge.specs.Merged.{CanMerge, HasSameMembers, IsMergedExactly, IsMergedInto, lowering};
ghost use Rattle.fa_merge.specs.Reordered.{IsOrderOf, reordered};
ghost use Rattle.fa_sound.specs.Components.{component_at};
ghost use Rattle.fa_merge.specs.inner.Lone.{AllRefer, IsReferrer, NoneRefer, NoneRefers};

use crate::grafting::merge_at;
use crate::orders::reorder_forest;
use crate::signing::component_signature;
use fa_core::forest::Forest;
use fa_core::signature::RefMark;
use fa_sound::{Sound, count_roots};
use fore_base::memory::Mem;
use std::alloc::Global;

/// The forest with its roots in this order, which has each of them once. Err is want of memory.
pub fn reorder(alloc: Global, forest: &Sound, order: &[u32]) -> Mem<Sound>
    requires { IsOrderOf forest.now.forest order.now }
    ensures value { IfOk result (λ made. made.forest ≡ reordered order.now forest.now.forest) }
    ensures face { IfOk result (λ made. made.face ≡ forest.now.face) }
    ensures whole { IfOk result (λ made. (T : List BoxDef) → Regroups T made.forest forest.now.forest) }
    ensures regroups { IfOk result (λ made. (T : List BoxDef) → Regroups T forest.now.forest made.forest) }
{
    forest.known();
    let count = count_roots(forest.forest())?;
    let made = reorder_counted(alloc, forest.forest(), order, count)?;
    Sound::of(alloc, made, forest.face())
}

/// The forest with its roots in this order, their number being one of 32 bits.
fn reorder_counted(alloc: Global, forest: &Forest, order: &[u32], count: u32) -> Mem<Forest>
    requires count { count ≡ length forest.now.autos }
    requires all { IsOrderOf forest.now order.now }
    ensures { IfOk result (λ made. made ≡ reordered order.now forest.now) }
{
    reorder_forest(alloc, forest, order)
}

/// The forest in which the root is merged into the one whose trees refer to it: the same members, grouped into other
/// trees. The root has no variable and exactly one reference, which is not in its own tree. Later roots move down by
/// one. Err is want of memory.
pub fn merge_root(alloc: Global, forest: &Sound, root: u32) -> Mem<Sound>
    requires { CanMerge forest.now.forest root }
    ensures value { IfOk result (λ made. IsMergedInto forest.now.forest root made.forest) }
    ensures plain { Every HasNoBoxes forest.now.forest.autos
        → IfOk result (λ made. IsMergedExactly forest.now.forest root made.forest) }
    ensures face { IfOk result (λ made. made.face ≡ forest.now.face) }
    ensures vars { IfOk result (λ made. made.forest.vars ≡ map (placed_leaf (lowering root)) forest.now.forest.vars) }
    ensures whole { IfOk result (λ made. (T : List BoxDef) → Regroups T made.forest forest.now.forest) }
    ensures regroups { IfOk result (λ made. (T : List BoxDef) → Regroups T forest.now.forest made.forest) }
    ensures members { IfOk result (λ made. HasSameMembers made.forest forest.now.forest) }
{
    forest.known();
    let count = count_roots(forest.forest())?;
    match referrer(alloc, forest, root, count)? {
        Some(into) => merge_at(alloc, forest, root, into, count),
        None => unreachable!(),
    }
}

/// The first root whose trees refer to the root.
fn referrer(alloc: Global, forest: &Sound, root: u32, count: u32) -> Mem<Option<u32>>
    requires { count ≡ length forest.now.forest.autos }
    ensures { IfOk result
        (λ found. MatchOption found (NoneRefers forest.now.forest root)
        (IsReferrer forest.now.forest root)) }
{
    for other in 0..count {
        if do_refer(alloc, forest, other, root)? {
            return Ok(Some(other));
        }
    }
    Ok(None)
}

/// Whether the trees of the one root refer to the other.
fn do_refer(alloc: Global, forest: &Sound, other: u32, root: u32) -> Mem<bool>
    requires { other < length forest.now.forest.autos }
    ensures { IfOk result
        (λ yes. MatchBool yes (AllRefer (component_at forest.now.forest.autos other) root)
        (NoneRefer (component_at forest.now.forest.autos other) root)) }
{
    let signature = component_signature(alloc, forest, other)?;
    Ok(is_marked_root(signature.refs.as_slice(), root))
}

/// Whether one of the marks is of the root.
pub fn is_marked_root(marks: &[RefMark], root: u32) -> bool
    ensures { result ≡ has root (roots_in marks.now) }
{
    for mark in marks {
        if root == mark.root {
            return true;
        }
    }
    false
}
