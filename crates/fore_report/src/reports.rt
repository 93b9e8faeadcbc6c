//! The report on what an exploration found.
ghost use Rattle.std.specs.Prelude.{◌≡◌, ℕ, true, IfOk};
ghost use Rattle.c_cfg.specs.Lowering.{LowerOf};
ghost use Rattle.c_cfg.specs.LoopFree.{has_no_loop};
ghost use Rattle.fix_core.specs.Explorations.{IsExplored};
ghost use Rattle.fix_verdict.specs.Verdicts.{SafeMeans, UnsafeMeans, BudgetMeans, TraceMeans};
ghost use Rattle.fore_report.specs.Reports.{
  IsSafeReport,
  IsUnsafeReport,
  IsBudgetReport,
  IsTraceReport,
  IsReportOf,
};

use crate::explored::{explored_report, trace_report};
use crate::texts::unsafe_report;
use crate::verdict::Verdict;
use c_cfg::graph::Graph;
use c_types::program::Typed;
use fa_core::table::BoxTable;
use fix_core::{AbsTrace, Explored, Nodes};
use fix_verdict::{Verdict as Finding, judge};
use fore_base::fault::Fault;
use fore_base::memory::Mem;
use fore_base::store::Store;
use fore_base::text::Text;
use fore_words::Settings;
use std::alloc::Global;

/// The verdict on what an exploration of the program's control graph found, with its report, whole. `malloc`
/// answers by the mode of the settings. A trace counts only where the program's own run on its
/// choices meets a fault. Err is want of memory.
pub fn report(
    alloc: Global,
    found: &Explored,
    settings: Settings,
    table: &BoxTable,
    graph: &Graph,
    program: &Typed,
) -> Mem<(Verdict, Text)>
    requires shapes { graph.now.shapes ≡ table.now.face.shapes }
    requires lowered { LowerOf program.now settings.malloc graph.now }
    requires explored { IsExplored table.now graph.now settings.height settings.budget found.now }
    ensures { IfOk result (λ made.
        IsReportOf table.now program.now graph.now settings found.now made.0 made.1) }
{
    let finding = judge(
        alloc,
        program,
        settings.malloc,
        graph,
        table,
        settings.height,
        settings.budget,
        found,
    )?;
    match (found, finding) {
        (Explored::Closed { nodes }, Finding::Safe) => {
            let text = safe_of(alloc, settings, nodes, table, graph, program)?;
            Ok((Verdict::Safe, text))
        }
        (Explored::Faulty { nodes, trace }, Finding::Unsafe { kind, line, step }) => {
            let text = unsafe_of(
                alloc, settings, nodes, trace, kind, line, step, table, graph, program,
            )?;
            Ok((Verdict::Unsafe, text))
        }
        (Explored::Spent { nodes }, Finding::FullBudget) => {
            let text = budget_of(alloc, settings, nodes, table, graph, program)?;
            Ok((Verdict::Unknown, text))
        }
        (Explored::Faulty { nodes, trace }, Finding::LooseTrace { sample }) => {
            let text = trace_of(
                alloc, settings, nodes, trace, &sample, table, graph, program,
            )?;
            Ok((Verdict::Unknown, text))
        }
        _ => unreachable!(),
    }
}

fn safe_of(
    alloc: Global,
    settings: Settings,
    nodes: &Nodes,
    table: &BoxTable,
    graph: &Graph,
    program: &Typed,
) -> Mem<Text>
    requires lowered { LowerOf program.now settings.malloc graph.now }
    requires shapes { graph.now.shapes ≡ table.now.face.shapes }
    requires means { SafeMeans table.now program.now settings.malloc graph.now
        settings.height settings.budget nodes.now }
    ensures { IfOk result (IsSafeReport table.now program.now graph.now settings nodes.now) }
{
    let text = explored_report(alloc, b"SAFE\n", settings, nodes, table, graph, program)?;
    Ok(text)
}

fn unsafe_of(
    alloc: Global,
    _settings: Settings,
    _nodes: &Nodes,
    trace: &AbsTrace,
    kind: Fault,
    line: u32,
    step: u64,
    _table: &BoxTable,
    _graph: &Graph,
    _program: &Typed,
) -> Mem<Text>
    requires { UnsafeMeans _table.now _program.now _settings.malloc _graph.now
        _settings.height _settings.budget _nodes.now trace.now kind line step }
    ensures { IfOk result (IsUnsafeReport _table.now _program.now _graph.now _settings _nodes.now trace.now) }
{
    let text = unsafe_report(alloc, kind, line, step, trace.choices.as_slice())?;
    Ok(text)
}

fn budget_of(
    alloc: Global,
    settings: Settings,
    nodes: &Nodes,
    table: &BoxTable,
    graph: &Graph,
    program: &Typed,
) -> Mem<Text>
    requires lowered { LowerOf program.now settings.malloc graph.now }
    requires shapes { graph.now.shapes ≡ table.now.face.shapes }
    requires means { BudgetMeans table.now program.now settings.malloc graph.now
        settings.height settings.budget nodes.now }
    ensures { IfOk result (IsBudgetReport table.now program.now graph.now settings nodes.now) }
{
    let text = explored_report(
        alloc,
        b"UNKNOWN budget\n",
        settings,
        nodes,
        table,
        graph,
        program,
    )?;
    Ok(text)
}

fn trace_of(
    alloc: Global,
    settings: Settings,
    nodes: &Nodes,
    trace: &AbsTrace,
    sample: &Store,
    table: &BoxTable,
    graph: &Graph,
    program: &Typed,
) -> Mem<Text>
    requires lowered { LowerOf program.now settings.malloc graph.now }
    requires shapes { graph.now.shapes ≡ table.now.face.shapes }
    requires means { TraceMeans table.now program.now settings.malloc graph.now
        settings.height settings.budget nodes.now trace.now sample.now }
    requires loops { has_no_loop program.now ≡ true → ⊥ }
    ensures { IfOk result (IsTraceReport table.now program.now graph.now settings nodes.now trace.now) }
{
    let text = trace_report(alloc, settings, nodes, trace, sample, table, graph, program)?;
    Ok(text)
}
