// The inner roots of a part, where none of them is reached otherwise.

ghost use Rattle.std.specs.Prelude.{◌↔◌, ◌<◌, ℕ, List, length, IsTrue, IfOk, MatchOption};
ghost use Rattle.fore_base.specs.Lists.{Every, IsIn};
ghost use Rattle.ta_core.specs.declared.tree.Tree.{Tree};
ghost use Rattle.fa_core.specs.Filled.{Choice};
ghost use Rattle.fa_core.specs.Folding.{left_refs};
ghost use Rattle.fa_part.specs.Ports.{AreInnerRoots, IsPortOf, ports_of};
ghost use Rattle.fa_part.specs.inner.Found.{ArePortRefs, IsAlone, IsNotAt, RefersInside};

use crate::ports::{Port, roots_of, taken_at};
use crate::referring::{component_refs, picked_refs};
use crate::visiting::inner_roots;
use fa_core::forest::Target;
use fa_filling::is_one_of;
use fa_sound::{Sound, count_roots};
use fore_base::list::List;
use fore_base::memory::Mem;
use std::alloc::Global;

/// The inner roots of the part at these ports, in order of first visit; None where a variable is at one of them, or a
/// slot outside of the part refers to one.
///
/// # Errors
///
/// Want of memory.
pub fn lone_roots(alloc: Global, forest: &Sound, ports: &[Port]) -> Mem<Option<List<u32>>>
    requires { Every (IsPortOf forest.now.forest.autos) ports.now }
    ensures { IfOk result (λ found. MatchOption found
        ((inner : List ℕ) → AreInnerRoots forest.now.forest (ports_of ports.now) inner → ⊥)
        (AreInnerRoots forest.now.forest (ports_of ports.now))) }
{
    forest.known();
    let roots = roots_of(alloc, ports)?;
    let from = port_refs(alloc, forest, ports)?;
    let inner = inner_roots(alloc, forest, &roots, from.as_slice())?;
    if !has_no_variable(forest.forest().vars.as_slice(), inner.as_slice()) {
        return Ok(None);
    }
    if !is_alone(alloc, forest, ports, inner.as_slice())? {
        return Ok(None);
    }
    Ok(Some(inner))
}

/// The roots to which the trees below the taken fields refer, port by port. Err is want of memory.
fn port_refs(alloc: Global, forest: &Sound, ports: &[Port]) -> Mem<List<u32>>
    requires { Every (IsPortOf forest.now.forest.autos) ports.now }
    ensures { IfOk result (ArePortRefs forest.now.forest.autos (ports_of ports.now)) }
{
    let mut made = List::new(alloc);
    for port in ports {
        made.append(picked_refs(alloc, forest, port.root, true, port.fields.as_slice())?)?;
    }
    Ok(made)
}

/// Whether no variable is at one of the roots.
fn has_no_variable(vars: &[Target], inner: &[u32]) -> bool
    ensures { IsTrue result ↔ Every (IsNotAt inner.now) vars.now }
{
    for target in vars {
        if !is_not_at(*target, inner) {
            return false;
        }
    }
    true
}

/// Whether the target is at none of the roots.
fn is_not_at(target: Target, roots: &[u32]) -> bool
    ensures { IsTrue result ↔ IsNotAt roots.now target }
{
    match target {
        Target::At(root) => !is_one_of(root, roots),
        Target::Null | Target::Uninit | Target::Dangling => true,
    }
}

/// Whether no slot outside of the part refers to one of its inner roots. Err is want of memory.
fn is_alone(alloc: Global, forest: &Sound, ports: &[Port], inner: &[u32]) -> Mem<bool>
    requires { Every (IsPortOf forest.now.forest.autos) ports.now }
    ensures { IfOk result (λ alone. (ts : List Tree) → Choice forest.now.forest.autos ts
        → IsTrue alone ↔ IsAlone ts (ports_of ports.now) inner.now) }
{
    let count = count_roots(forest.forest())?;
    for root in 0..count {
        if refers_inside(alloc, forest, ports, inner, root)? {
            return Ok(false);
        }
    }
    Ok(true)
}

/// Whether the root is none of the inner roots, and a slot of it that is not taken refers to one. Err is want of
/// memory.
fn refers_inside(
    alloc: Global,
    forest: &Sound,
    ports: &[Port],
    inner: &[u32],
    root: u32,
) -> Mem<bool>
    requires root { root < length forest.now.forest.autos }
    requires ports { Every (IsPortOf forest.now.forest.autos) ports.now }
    ensures { IfOk result (λ yes. (ts : List Tree) → Choice forest.now.forest.autos ts
        → IsTrue yes ↔ RefersInside ts (ports_of ports.now) inner.now root) }
{
    if is_one_of(root, inner) {
        return Ok(false);
    }
    let refs = outer_refs(alloc, forest, ports, root)?;
    Ok(!are_apart(refs.as_slice(), inner))
}

/// The roots to which the slots of the root that are not taken refer. Err is want of memory.
fn outer_refs(alloc: Global, forest: &Sound, ports: &[Port], root: u32) -> Mem<List<u32>>
    requires root { root < length forest.now.forest.autos }
    requires ports { Every (IsPortOf forest.now.forest.autos) ports.now }
    ensures { IfOk result (λ refs. (ts : List Tree) → Choice forest.now.forest.autos ts → (k : ℕ)
        → IsIn k refs ↔ IsIn k (left_refs ts (ports_of ports.now) root)) }
{
    forest.known();
    let fields = taken_at(alloc, ports, root)?;
    if fields.is_empty() {
        component_refs(alloc, forest, root)
    } else {
        picked_refs(alloc, forest, root, false, fields.as_slice())
    }
}

/// Whether no number is in both lists.
fn are_apart(numbers: &[u32], others: &[u32]) -> bool
    ensures { IsTrue result ↔ Every (λ k. IsIn k others.now → ⊥) numbers.now }
{
    for number in numbers {
        if is_one_of(*number, others) {
            return false;
        }
    }
    true
}
