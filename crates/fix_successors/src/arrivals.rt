// What the cases of an edge become: at a loop head they are folded and abstracted, elsewhere they are carried on.
ghost use Rattle.std.specs.Prelude.{◌<◌, IfOk};
ghost use Rattle.fore_base.specs.Lists.{Every};
ghost use Rattle.fa_core.specs.declared.forest.Forest.{Forest};
ghost use Rattle.fix_successors.specs.Arriving.{AreArrivals, AreCarried, AreCases};
ghost use Rattle.fix_successors.specs.Ready.{IsNormal};

use crate::settling::settle_all;
use crate::task::Task;
use c_cfg::graph::Edge;
use fa_sound::Sound;
use fix_core::states::State;
use fore_base::list::List;
use fore_base::memory::Mem;
use std::alloc::Global;
use std::thread::Threads;

/// What the cases of an edge become at the location at which it ends. Err is want of memory.
pub fn arrivals_of<R: Threads + Sync>(
    task: &Task<'_, R>,
    edge: &Edge,
    cases: &[Sound],
) -> Mem<List<State>>
    requires location { edge.now.to < task.now.graph.locations }
    requires normal { Every (IsNormal task.now.table task.now.graph) cases.now }
    ensures { IfOk result (λ states. (F : Forest) → AreCases task.now.table task.now.graph F edge.now cases.now
        → AreArrivals task.now.table task.now.graph task.now.height F edge.now cases.now states) }
{
    if task.graph().is_loop_head(edge.to) {
        settle_all(task, cases)
    } else {
        carry_all(task.alloc(), cases)
    }
}

/// The cases, each as it is.
fn carry_all(alloc: Global, cases: &[Sound]) -> Mem<List<State>>
    ensures { IfOk result (AreCarried cases.now) }
{
    let mut states = List::new(alloc);
    for case in cases {
        case.known();
        let forest = case.copy(alloc)?;
        states.push(State::carried(alloc, forest))?;
    }
    Ok(states)
}
