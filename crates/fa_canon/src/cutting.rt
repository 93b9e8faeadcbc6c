// Knots cut out of the trees of shared roots, root by root and field by field.

ghost use Rattle.std.specs.Prelude.{◌≡◌, ◌<◌, ◌+◌, [], ◌∷◌, IfOk, MatchBool};
ghost use Rattle.ta_core.specs.Single.{HasOneTop};
ghost use Rattle.fa_order.specs.Kinds.{IsSharedRoot};
ghost use Rattle.fa_split.specs.Split.{CanSplit, top_rule};
ghost use Rattle.fa_canon.specs.inner.Cutting.{field_at, has_field_at};
ghost use Rattle.fa_canon.specs.inner.Knots.{AreTied, AreUntied, CanCut, HasCut, HasCutAt, IsReady};
ghost use Rattle.fa_canon.specs.inner.Steps.{IsSplitEach};

use crate::choosing::ChooseFrom;
use crate::steps::{Step, alone, on_each};
use fa_merge::merge::is_marked_root;
use fa_order::is_shared_root;
use fa_sound::{Sound, component, count_roots};
use fa_split::{child_marks, count_children, rule_at_top, split_child};
use fore_base::list::List;
use fore_base::memory::Mem;
use std::alloc::Global;
use ta_core::auto::Auto;
use ta_core::symbol::{Slot, Symbol};

/// Forests without knots in the trees of those of their first `count` roots that are shared: each cell that was one is
/// a root. Err is want of memory.
pub fn cut_knots(alloc: Global, forest: Sound, count: u32) -> Mem<List<Sound>>
    requires { IsReady count 0 0 forest }
    ensures { IfOk result (λ made. IsSplitEach (HasCut count count 0) (forest ∷ []) made) }
{
    let mut list = alone(alloc, forest)?;
    for root in 0..count {
        list = on_each(alloc, &CutRoot { root, count }, list)?;
    }
    Ok(list)
}

/// The knots in the trees of the first `count` roots, all of them.
#[derive(Drop)]
pub struct CutKnots {
    pub count: u32,
}

impl Step for CutKnots {
    ghost use Rattle.fa_canon.specs.inner.Knots.{HasCut, IsReady};

    ghost accepts = { λ step. IsReady step.count 0 0 };

    ghost relates = { λ step. HasCut step.count step.count 0 };

    fn apply(&self, alloc: Global, forest: Sound) -> Mem<List<Sound>> {
        cut_knots(alloc, forest, self.count)
    }
}

/// The knots in the tree of one of the first `count` roots.
#[derive(Drop)]
struct CutRoot {
    root: u32,
    count: u32,
}

impl Step for CutRoot {
    ghost use Rattle.std.specs.Prelude.{◌<◌, ◌+◌};
    ghost use Rattle.fa_canon.specs.inner.Knots.{HasCut, IsReady};

    ghost accepts = { λ step F. IsReady step.count step.root 0 F × (step.root < step.count) };

    ghost relates = { λ step. HasCut step.count (step.root + 1) 0 };

    fn apply(&self, alloc: Global, forest: Sound) -> Mem<List<Sound>> {
        cut_root(alloc, forest, self.root, self.count)
    }
}

/// The knots in the tree of the root, where it is shared.
fn cut_root(alloc: Global, forest: Sound, root: u32, count: u32) -> Mem<List<Sound>>
    requires ready { IsReady count root 0 forest }
    requires root { root < count }
    ensures { IfOk result (λ made. IsSplitEach (HasCut count (root + 1) 0) (forest ∷ []) made) }
{
    let is_shared = is_shared_root(alloc, &forest, root)?;
    if is_shared {
        cut_children(alloc, forest, root, count)
    } else {
        alone(alloc, forest)
    }
}

/// The knots in the tree of the root, which is shared.
fn cut_children(alloc: Global, forest: Sound, root: u32, count: u32) -> Mem<List<Sound>>
    requires ready { IsReady count root 0 forest }
    requires root { root < count }
    requires shared { IsSharedRoot forest.forest root }
    ensures { IfOk result (λ made. IsSplitEach (HasCut count (root + 1) 0) (forest ∷ []) made) }
{
    forest.known();
    let width = count_children(component(forest.forest(), root));
    let mut list = alone(alloc, forest)?;
    for place in 0..width {
        let step = CutChild {
            root,
            place,
            count,
            width,
        };
        list = on_each(alloc, &step, list)?;
    }
    Ok(list)
}

/// The knot at a place below one of the first `count` roots, which is shared and whose trees have `width` children.
#[derive(Drop)]
struct CutChild {
    root: u32,
    place: usize,
    count: u32,
    width: usize,
}

impl Step for CutChild {
    ghost use Rattle.std.specs.Prelude.{◌+◌};
    ghost use Rattle.fa_canon.specs.inner.Knots.{CanCut, HasCutAt};

    ghost accepts = { λ step. CanCut step.count step.root step.place step.width };

    ghost relates = { λ step. HasCutAt step.count step.root (step.place + 1) step.width };

    fn apply(&self, alloc: Global, forest: Sound) -> Mem<List<Sound>> {
        cut_child(alloc, forest, self)
    }
}

fn cut_child(alloc: Global, forest: Sound, step: &CutChild) -> Mem<List<Sound>>
    requires { CanCut step.now.count step.now.root step.now.place step.now.width forest }
    ensures { IfOk result
        (λ made. IsSplitEach (HasCutAt step.now.count step.now.root (step.now.place + 1) step.now.width)
        (forest ∷ []) made) }
{
    forest.known();
    if is_tied(&forest, step.root, step.place) {
        cut_knot(alloc, &forest, step)
    } else {
        alone(alloc, forest)
    }
}

/// Whether a field leads to the child at the place below the root, and the child refers to the root, whichever it is;
/// else a field does not, or the child does not, whichever it is.
fn is_tied(forest: &Sound, root: u32, place: usize) -> bool
    requires { CanSplit forest.now.forest root place }
    ensures { MatchBool result (AreTied root place forest.now) (AreUntied root place forest.now) }
{
    let is_field = has_field_at(component(forest.forest(), root), place);
    let is_named = is_marked_root(child_marks(forest, root, place), root);
    is_field && is_named
}

/// Whether a field leads to the child at the place below the one rule at the top.
fn has_field_at(auto: &Auto, place: usize) -> bool
    requires { HasOneTop auto.now }
    ensures { result ≡ has_field_at (top_rule auto.now).symbol place }
{
    match &rule_at_top(auto).symbol {
        Symbol::Cell { slots, .. } => is_field_at(slots.as_slice(), place),
        _ => false,
    }
}

/// Whether a field leads to the child at the place.
fn is_field_at(slots: &[Slot], place: usize) -> bool
    ensures { result ≡ field_at slots.now place }
{
    let mut left = place;
    for slot in slots {
        match slot {
            Slot::Hook(_) => {}
            Slot::Field(_) => {
                if left == 0 {
                    return true;
                }
                left -= 1;
            }
            Slot::Link(_) => {
                if left == 0 {
                    return false;
                }
                left -= 1;
            }
        }
    }
    false
}

/// The child split, which refers to the root, and one rule chosen for the new root.
fn cut_knot(alloc: Global, forest: &Sound, step: &CutChild) -> Mem<List<Sound>>
    requires can { CanCut step.now.count step.now.root step.now.place step.now.width forest.now }
    requires tied { AreTied step.now.root step.now.place forest.now }
    ensures { IfOk result
        (λ made. IsSplitEach (HasCutAt step.now.count step.now.root (step.now.place + 1) step.now.width)
        (forest.now ∷ []) made) }
{
    forest.known();
    let from = count_roots(forest.forest())?;
    let list = split_child(alloc, forest, step.root, step.place)?;
    on_each(alloc, &ChooseFrom { from }, list)
}
