// Whether a forest is canonical, and whether its roots are those of a canonical one.

ghost use Rattle.std.specs.Prelude.{◌≡◌, ◌<◌, ◌*◌, ◌^◌, ◌↔◌, length, IsTrue, IfOk};
ghost use Rattle.fore_base.specs.Lists.{Every};
ghost use Rattle.ta_core.specs.Single.{HasOneTop};
ghost use Rattle.fa_core.specs.Canonical.{IsCanonical};
ghost use Rattle.fa_merge.specs.Reordered.{counted};
ghost use Rattle.fa_order.specs.Kinds.{HasRootKinds};
ghost use Rattle.fa_order.specs.inner.Deciding.{any_cell, any_leads, any_leaf, any_other, any_ties, knot_by};
ghost use Rattle.fa_order.specs.inner.Deciding.{led_by, rise_from, root_by, roots_by};
ghost use Rattle.fa_order.specs.inner.Deciding.{shared_by, ties, times_shown};

use crate::roots::walk_order;
use crate::showing::{Shown, shown_roots};
use fa_core::cells::has;
use fa_core::signature::{Below, RefMark};
use fa_merge::counting::count_marks;
use fa_merge::leaking::var_roots;
use fa_merge::merge::is_marked_root;
use fa_sound::{Sound, count_roots};
use fore_base::memory::Mem;
use std::alloc::Global;
use ta_core::auto::Auto;
use ta_core::single::has_one_top;

/// Whether the forest is canonical. Err is want of memory.
pub fn is_canonical(alloc: Global, forest: &Sound) -> Mem<bool>
    ensures { IfOk result (λ yes. IsTrue yes ↔ IsCanonical forest.now.face forest.now.forest) }
{
    forest.known();
    let is_rooted = has_root_kinds(alloc, forest)?;
    if !is_rooted {
        return Ok(false);
    }
    let count = count_roots(forest.forest())?;
    let order = walk_order(alloc, forest)?;
    Ok(is_counted(order.as_slice(), count))
}

/// Whether each component has one root state with one rule, and the roots are the cells of the four kinds: what makes
/// the forest canonical but for the order of its roots. Err is want of memory.
pub fn has_root_kinds(alloc: Global, forest: &Sound) -> Mem<bool>
    ensures { IfOk result (λ yes. IsTrue yes ↔ HasRootKinds forest.now.face forest.now.forest) }
{
    forest.known();
    if !have_one_top(forest.forest().autos.as_slice()) {
        return Ok(false);
    }
    let count = count_roots(forest.forest())?;
    let shown = shown_roots(alloc, forest, count)?;
    let vars = var_roots(alloc, forest.forest().vars.as_slice())?;
    Ok(are_roots(vars.as_slice(), shown.as_slice()))
}

/// Whether each component has one root state with one rule.
fn have_one_top(autos: &[Auto]) -> bool
    ensures { IsTrue result ↔ Every HasOneTop autos.now }
{
    for auto in autos {
        if !has_one_top(auto) {
            return false;
        }
    }
    true
}

/// Whether the numbers are those below `count`, in order.
fn is_counted(numbers: &[u32], count: u32) -> bool
    ensures { IsTrue result ↔ (numbers.now ≡ counted 0 count) }
{
    numbers.len() == count as usize && do_rise(numbers)
}

fn do_rise(numbers: &[u32]) -> bool
    requires { length numbers.now < 2 ^ 32 }
    ensures { result ≡ rise_from 0 numbers.now }
{
    let mut next: u32 = 0;
    for number in numbers {
        if *number != next {
            return false;
        }
        next += 1;
    }
    true
}

/// Whether each root is one of a canonical forest, and no other cell is.
fn are_roots(vars: &[u32], shown: &[Shown]) -> bool
    requires { length shown.now < 2 ^ 32 }
    ensures { result ≡ roots_by vars.now shown.now 0 shown.now }
{
    let mut root: u32 = 0;
    for own in shown {
        if !is_root(vars, shown, root, own) {
            return false;
        }
        root += 1;
    }
    true
}

fn is_root(vars: &[u32], shown: &[Shown], root: u32, own: &Shown) -> bool
    requires { length shown.now < 2 ^ 32 }
    ensures { result ≡ root_by vars.now shown.now root own.now }
{
    if is_shared(vars, shown, root) {
        !is_cell_to(root, own.ends.as_slice())
    } else {
        is_knot(vars, shown, root, own.marks.as_slice())
            || is_led_to(vars, shown, root, own.marks.as_slice())
    }
}

/// Whether no variable points to the root, no other tree refers to it, and a way back from another root leads to it.
fn is_led_to(vars: &[u32], shown: &[Shown], root: u32, own: &[RefMark]) -> bool
    requires { length shown.now < 2 ^ 32 }
    ensures { result ≡ led_by vars.now shown.now root own.now }
{
    !has(root, vars) && !is_named_elsewhere(shown, root) && is_led(root, own)
}

/// Whether a tree other than the root's own refers to it.
fn is_named_elsewhere(shown: &[Shown], root: u32) -> bool
    requires { length shown.now < 2 ^ 32 }
    ensures { result ≡ any_other root 0 shown.now }
{
    let mut from: u32 = 0;
    for other in shown {
        if from != root && is_marked_root(other.marks.as_slice(), root) {
            return true;
        }
        from += 1;
    }
    false
}

/// Whether a way back from another root into the root's own tree leads to it.
fn is_led(root: u32, own: &[RefMark]) -> bool
    ensures { result ≡ any_leads root own.now }
{
    for mark in own {
        if mark.root != root && (mark.back || has(root, mark.reach.as_slice())) {
            return true;
        }
    }
    false
}

/// Whether a variable points to the root, or there are two references to it.
fn is_shared(vars: &[u32], shown: &[Shown], root: u32) -> bool
    requires { length shown.now < 2 ^ 32 }
    ensures { result ≡ shared_by vars.now shown.now root }
{
    has(root, vars) || 2 <= count_references(root, shown)
}

/// Whether there is one reference to the root, in a field of a shared root to which its own trees refer.
fn is_knot(vars: &[u32], shown: &[Shown], root: u32, own: &[RefMark]) -> bool
    requires { length shown.now < 2 ^ 32 }
    ensures { result ≡ knot_by vars.now shown.now root own.now }
{
    count_references(root, shown) == 1 && is_tied(vars, shown, root, own)
}

fn is_tied(vars: &[u32], shown: &[Shown], root: u32, own: &[RefMark]) -> bool
    requires { length shown.now < 2 ^ 32 }
    ensures { result ≡ any_ties vars.now shown.now root own.now 0 shown.now }
{
    let mut from: u32 = 0;
    for above in shown {
        if does_tie(vars, shown, root, own, from, above) {
            return true;
        }
        from += 1;
    }
    false
}

fn does_tie(
    vars: &[u32],
    shown: &[Shown],
    root: u32,
    own: &[RefMark],
    from: u32,
    above: &Shown,
) -> bool
    requires { length shown.now < 2 ^ 32 }
    ensures { result ≡ ties vars.now shown.now root own.now from above.now }
{
    is_shared(vars, shown, from)
        && is_leaf_to(root, above.ends.as_slice())
        && is_marked_root(own, from)
}

/// Whether a leaf that refers to the root stands at one of the ends.
fn is_leaf_to(root: u32, ends: &[Below]) -> bool
    ensures { result ≡ any_leaf root ends.now }
{
    for end in ends {
        if end.leaf && is_marked_root(end.marks.as_slice(), root) {
            return true;
        }
    }
    false
}

/// Whether a cell whose tree refers to the root stands at one of the ends.
fn is_cell_to(root: u32, ends: &[Below]) -> bool
    ensures { result ≡ any_cell root ends.now }
{
    for end in ends {
        if !end.leaf && is_marked_root(end.marks.as_slice(), root) {
            return true;
        }
    }
    false
}

/// How many references to the root there are, as far as two in each tree.
fn count_references(root: u32, shown: &[Shown]) -> u64
    requires { length shown.now < 2 ^ 32 }
    ensures { result ≡ times_shown root shown.now }
{
    let mut sum: u64 = 0;
    for own in shown {
        sum += count_marks(own.marks.as_slice(), root);
    }
    sum
}
