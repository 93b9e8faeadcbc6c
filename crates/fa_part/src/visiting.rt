// The walk that finds the roots of a part.

ghost use Rattle.std.specs.Prelude.{◌≡◌, ◌≤◌, ◌++◌, drop, length, IfOk};
ghost use Rattle.fore_base.specs.Lists.{Every};
ghost use Rattle.fa_core.specs.Folding.{Placing};
ghost use Rattle.fa_core.specs.References.{AllBelow};
ghost use Rattle.fa_order.specs.inner.Stacks.{nth_refs};
ghost use Rattle.fa_part.specs.inner.Found.{IsPartOrder};

use crate::referring::root_refs;
use fa_order::{push_all, visit};
use fa_sound::Sound;
use fore_base::list::{Copies, List};
use fore_base::memory::Mem;
use std::alloc::Global;

/// The inner roots of a part: the roots that are reached without passing the ports from the roots to which the ports'
/// fields refer, in the order of first visit. Err is want of memory.
pub fn inner_roots(alloc: Global, forest: &Sound, ports: &List<u32>, from: &[u32]) -> Mem<List<u32>>
    requires { AllBelow (length forest.now.forest.autos) from.now }
    ensures { IfOk result (λ inner. IsPartOrder forest.now.forest ports.now from.now (ports.now ++ inner)) }
{
    forest.known();
    let order = part_order(alloc, forest, ports, from)?;
    rest_of(alloc, order.as_slice(), ports.len())
}

/// The numbers from a place on. Err is want of memory.
fn rest_of(alloc: Global, numbers: &[u32], place: usize) -> Mem<List<u32>>
    requires { place ≤ length numbers.now }
    ensures { IfOk result (λ made. made ≡ drop place numbers.now) }
{
    let made = List::from_slice(alloc, &numbers[place..])?;
    Ok(made)
}

/// The ports, and behind them the roots that are reached without passing the ports from the roots to which the ports'
/// fields refer, in the order of first visit. Err is want of memory.
fn part_order(alloc: Global, forest: &Sound, ports: &List<u32>, from: &[u32]) -> Mem<List<u32>>
    requires { AllBelow (length forest.now.forest.autos) from.now }
    ensures { IfOk result (IsPartOrder forest.now.forest ports.now from.now) }
{
    forest.known();
    let refers = root_refs(alloc, forest)?;
    visited(alloc, from, ports, &refers)
}

/// The roots that are placed by the walk from these roots, where `ports` are placed at first: depth first, each root at
/// its first visit. Err is want of memory.
fn visited(
    alloc: Global,
    from: &[u32],
    ports: &List<u32>,
    refers: &List<List<u32>>,
) -> Mem<List<u32>>
    requires from { AllBelow (length refers.now) from.now }
    requires refers { Every (AllBelow (length refers.now)) refers.now }
    ensures { IfOk result (λ order. Placing (nth_refs refers.now) from.now ports.now order) }
{
    let mut stack = List::new(alloc);
    let mut placed = ports.copy(alloc)?;
    push_all(&mut stack, from)?;
    while let Some(root) = stack.pop() {
        visit(&mut stack, &mut placed, refers, root)?;
    }
    Ok(placed)
}
