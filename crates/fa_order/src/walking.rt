// The walk that places the roots, by a stack of roots to be visited and by ways back where it is empty.

ghost use Rattle.std.specs.Prelude.{◌≡◌, ◌<◌, ◌^◌, ◌++◌, [], length, IfOk, OnOk, reverse};
ghost use Rattle.fore_base.specs.Lists.{Every};
ghost use Rattle.fa_core.specs.References.{AllBelow};
ghost use Rattle.fa_order.specs.Placing.{PlacingOn};
ghost use Rattle.fa_order.specs.Visits.{IsVisit};
ghost use Rattle.fa_order.specs.inner.Backs.{AreLedWithin, GivesBy, IsNext, LeadsBy};
ghost use Rattle.fa_order.specs.inner.Stacks.{nth_refs};

use crate::ways_back::next_led;
use fa_core::cells::has;
use fa_core::signature::Signature;
use fore_base::list::{Copies, List};
use fore_base::memory::Mem;
use std::alloc::Global;

/// The roots in the order of the walk from these, by the signatures of the trees. Err is want of memory.
pub fn walk(
    alloc: Global,
    from: &[u32],
    refers: &List<List<u32>>,
    signatures: &[Signature],
) -> Mem<List<u32>>
    requires from { AllBelow (length refers.now) from.now }
    requires refers { Every (AllBelow (length refers.now)) refers.now }
    requires long { length signatures.now ≡ length refers.now }
    requires few { length signatures.now < 2 ^ 32 }
    requires within { AreLedWithin signatures.now refers.now }
    ensures { IfOk result (λ order. PlacingOn (nth_refs refers.now) (LeadsBy signatures.now) (GivesBy signatures.now)
        from.now [] order) }
{
    let mut stack = List::new(alloc);
    let mut placed = List::new(alloc);
    push_all(&mut stack, from)?;
    while let Some(root) = next_visit(&mut stack, placed.as_slice(), refers, signatures) {
        visit(&mut stack, &mut placed, refers, root)?;
    }
    Ok(placed)
}

/// The root to be visited next: the one on top of the stack, or, where this is empty, the one at which the walk goes
/// on.
fn next_visit(
    stack: &mut List<u32>,
    placed: &[u32],
    refers: &List<List<u32>>,
    signatures: &[Signature],
) -> Option<u32>
    requires refers { Every (AllBelow (length refers.now)) refers.now }
    requires long { length signatures.now ≡ length refers.now }
    requires few { length signatures.now < 2 ^ 32 }
    requires within { AreLedWithin signatures.now refers.now }
    ensures { IsNext signatures.now refers.now placed.now (reverse stack.old) (reverse stack.new) result }
{
    match stack.pop() {
        Some(root) => Some(root),
        None => next_led(signatures, refers, placed),
    }
}

/// Visits the root: where it is not placed yet it is placed, and the roots to which it refers are put on the stack. Err
/// is want of memory.
pub fn visit(
    stack: &mut List<u32>,
    placed: &mut List<u32>,
    refers: &List<List<u32>>,
    root: u32,
) -> Mem<()>
    requires { root < length refers.now }
    ensures { OnOk result (IsVisit refers.now root (reverse stack.old) placed.old (reverse stack.new) placed.new) }
{
    if has(root, placed.as_slice()) {
        Ok(())
    } else {
        placed.push(root)?;
        push_all(stack, refers.at(root as usize).as_slice())?;
        Ok(())
    }
}

/// Puts the roots on the stack so that the first of them is on top. Err is want of memory.
#[tactic(auto, using(crate::proofs::Weights::reverse_last))]
pub fn push_all(stack: &mut List<u32>, roots: &[u32]) -> Mem<()>
    ensures { OnOk result (reverse stack.new ≡ roots.now ++ reverse stack.old) }
{
    for place in (0..roots.len()).rev() {
        stack.push(roots[place])?;
    }
    Ok(())
}
