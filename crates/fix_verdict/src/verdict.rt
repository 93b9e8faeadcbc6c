// What is said of a program, when its graph was explored.
ghost use Rattle.std.specs.Prelude.{◌≡◌, ◌≤◌, ◌<◌, ◌-◌, ◌^◌, true, IfOk};
ghost use Rattle.c_cfg.specs.LoopFree.{has_no_loop};
ghost use Rattle.c_cfg.specs.Lowering.{LowerOf};
ghost use Rattle.fix_core.specs.Explorations.{IsExplored};
ghost use Rattle.fix_verdict.specs.inner.Judging.{IsReplayed};
ghost use Rattle.fix_verdict.specs.Verdicts.{IsNeverLoose, IsVerdict};

use c_cfg::graph::Graph;
use c_cfg::laws::{
    alike_stores_step_alike, edges_in_range, edges_make_runs, graphs_agree, loop_free_graphs,
};
use c_types::laws::{fault_at_its_step, over_stays};
use c_types::mode::MallocMode;
use c_types::program::Typed;
use fa_core::table::BoxTable;
use fa_sample::sample;
use fix_core::explored::{AbsTrace, Explored};
use fix_decided::laws::enough_nodes_decide;
use fore_base::fault::Fault;
use fore_base::memory::Mem;
use fore_base::store::Store;
use std::alloc::Global;
use trace_replay::{Replay, replay};

/// How many steps the run on the choices of a trace is followed at least: it may meet its fault after the trace's last
/// step.
pub const REPLAY_STEPS: u64 = 1000000;

/// What is said of a program.
#[derive(Drop)]
pub enum Verdict {
    /// No run meets a fault.
    Safe,
    /// The run on the trace's choices meets this fault, in this line at this step.
    Unsafe { kind: Fault, line: u32, step: u64 },
    /// Not known: the budget is full. If the program has no loop, its graph has more prefixes than the budget.
    FullBudget,
    /// Not known: the run on the trace's choices meets no fault in up to `REPLAY_STEPS` steps. Here is a member of the
    /// trace's last forest.
    LooseTrace { sample: Store },
}

/// The verdict on a program whose `malloc` answers by the mode, from what the exploration of its graph found. A trace
/// counts only where the program's own run on its choices meets a fault, be it after the trace's last step. Without
/// loops a trace is never loose, and the budget is full only where the graph has more prefixes.
///
/// # Errors
///
/// Want of memory.
pub fn judge(
    alloc: Global,
    program: &Typed,
    mode: MallocMode,
    graph: &Graph,
    table: &BoxTable,
    height: u32,
    budget: u32,
    found: &Explored,
) -> Mem<Verdict>
    requires explored { IsExplored table.now graph.now height budget found.now }
    requires lowered { LowerOf program.now mode graph.now }
    requires shapes { graph.now.shapes ≡ table.now.face.shapes }
    ensures verdict { IfOk result (IsVerdict table.now program.now mode graph.now height budget found.now) }
    ensures loops { has_no_loop program.now ≡ true → IfOk result IsNeverLoose }
{
    graphs_agree(program, mode, graph);
    edges_make_runs(program, mode, graph);
    edges_in_range(program, mode, graph);
    alike_stores_step_alike(graph);
    loop_free_graphs(program, mode, graph);
    over_stays(program);
    fault_at_its_step(program);
    enough_nodes_decide();
    table.known();
    match found {
        Explored::Closed { .. } => Ok(Verdict::Safe),
        Explored::Spent { .. } => Ok(Verdict::FullBudget),
        Explored::Faulty { trace, .. } => {
            let steps = replay_steps(trace.steps);
            judge_trace(alloc, program, mode, table, trace, steps)
        }
    }
}

/// How many steps a trace of this length is replayed.
fn replay_steps(steps: u64) -> u64
    requires { steps < 2 ^ 64 - 1 }
    ensures trace { steps ≤ result }
    ensures more { REPLAY_STEPS ≤ result }
    ensures fits { result < 2 ^ 64 - 1 }
{
    if steps < REPLAY_STEPS {
        REPLAY_STEPS
    } else {
        steps
    }
}

fn judge_trace(
    alloc: Global,
    program: &Typed,
    mode: MallocMode,
    table: &BoxTable,
    trace: &AbsTrace,
    steps: u64,
) -> Mem<Verdict>
    requires below { steps < 2 ^ 64 - 1 }
    requires face { table.now.face ≡ trace.now.last.face }
    ensures { IfOk result (IsReplayed table.now program.now mode trace.now steps) }
{
    match replay(alloc, program, mode, trace.choices.as_slice(), steps)? {
        Replay::Real { kind, line, step } => Ok(Verdict::Unsafe { kind, line, step }),
        Replay::Spurious => {
            let sample = sample(alloc, &trace.last, table)?;
            Ok(Verdict::LooseTrace { sample })
        }
    }
}
