// The states that are reached by arcs, each of which leads from several states to one.

ghost use Rattle.std.specs.Prelude.{◌<◌, IfOk};
ghost use Rattle.fore_base.specs.Lists.{Every};
ghost use Rattle.fore_base.specs.Marks.{MarksOf};
ghost use Rattle.ta_core.specs.inner.Closing.{Reached, Takes};

use crate::arc::Arc;
use crate::rounds::{Taker, take_all};
use fore_base::list::List;
use fore_base::marks::{are_all_marked, is_marked, mark, unmarked};
use fore_base::memory::Mem;
use std::alloc::Global;

/// The states below `states` that the arcs reach.
pub fn reached(alloc: Global, states: u32, arcs: &[Arc]) -> Mem<List<bool>>
    requires { Every (λ s. s.to < states) arcs.now }
    ensures { IfOk result (MarksOf states (Reached arcs.now)) }
{
    let mut marks = unmarked(alloc, states as usize)?;
    let marking = Marking { states, arcs };
    take_all(&marking, arcs, &mut marks)?;
    Ok(marks)
}

/// What marks the states below `states` that the arcs reach.
#[derive(Clone, Copy)]
struct Marking<'a> {
    states: u32,
    arcs: &'a [Arc],
}

impl Taker<List<bool>, Arc> for Marking<'_> {
    ghost use Rattle.std.specs.Prelude.{◌≡◌, ◌<◌, length};
    ghost use Rattle.fore_base.specs.Lists.{IsIn};
    ghost use Rattle.ta_core.specs.inner.Closing.{AreReached, IsTaken, gaps};

    ghost accepts = { λ m s. IsIn s m.arcs.now × (s.to < m.states) };

    ghost keeps = { λ m marks. (length marks ≡ m.states) × AreReached m.arcs.now marks };

    ghost is_taken = { λ m marks s. IsTaken marks s };

    ghost left = { λ m marks. gaps marks };

    fn take(&self, marks: &mut List<bool>, arc: &Arc) -> Mem<bool> {
        Ok(take(marks, arc))
    }
}

/// Marks where the arc leads, if it has no mark and all the states before it have, and says whether it did.
fn take(marks: &mut List<bool>, arc: &Arc) -> bool
    ensures { Takes arc.now marks.old marks.new result }
{
    if is_marked(marks.as_slice(), arc.to)
        || !are_all_marked(marks.as_slice(), arc.from.as_slice())
    {
        return false;
    }
    mark(marks, arc.to);
    true
}
