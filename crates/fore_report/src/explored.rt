// The reports that print an exploration.
ghost use Rattle.std.specs.Prelude.{◌≡◌, ◌++◌, IfOk};
ghost use Rattle.c_cfg.specs.Lowering.{LowerOf};
ghost use Rattle.fix_core.specs.Explorations.{AbstractTrace, Exploration};
ghost use Rattle.fix_core.specs.Follows.{IsMember};
ghost use Rattle.fore_report.specs.Reports.{explored_text};
ghost use Rattle.fore_report.specs.Texts.{trace_text};

use crate::texts::put_trace;
use c_cfg::graph::Graph;
use c_types::program::Typed;
use fa_core::table::BoxTable;
use fa_print::laws::members_can_be_printed;
use fix_core::{AbsTrace, Nodes};
use fore_base::memory::Mem;
use fore_base::store::Store;
use fore_base::text::Text;
use fore_explored::{put_exploration, put_last};
use fore_words::Settings;
use std::alloc::Global;

/// A report that has nothing but its first line and the exploration, whole. Err is want of memory.
pub fn explored_report(
    alloc: Global,
    first: &[u8],
    settings: Settings,
    nodes: &Nodes,
    table: &BoxTable,
    graph: &Graph,
    program: &Typed,
) -> Mem<Text>
    requires lowered { LowerOf program.now settings.malloc graph.now }
    requires shapes { graph.now.shapes ≡ table.now.face.shapes }
    requires explored { Exploration table.now graph.now settings.height nodes.now }
    ensures { IfOk result (λ text.
        text ≡ first.now ++ explored_text table.now program.now graph.now settings nodes.now) }
{
    let mut text = Text::new(alloc);
    text.put(first)?;
    put_exploration(
        alloc,
        &mut text,
        table,
        program,
        settings.malloc,
        graph,
        settings.height,
        settings.budget,
        nodes,
    )?;
    Ok(text)
}

/// The report on an abstract trace whose choices meet no fault, whole, with a member of its last forest. Err is want
/// of memory.
pub fn trace_report(
    alloc: Global,
    settings: Settings,
    nodes: &Nodes,
    trace: &AbsTrace,
    sample: &Store,
    table: &BoxTable,
    graph: &Graph,
    program: &Typed,
) -> Mem<Text>
    requires lowered { LowerOf program.now settings.malloc graph.now }
    requires shapes { graph.now.shapes ≡ table.now.face.shapes }
    requires explored { Exploration table.now graph.now settings.height nodes.now }
    requires trace { AbstractTrace table.now graph.now nodes.now trace.now }
    requires member { IsMember table.now trace.now.last.forest sample.now }
    ensures { IfOk result (λ text. text ≡ trace_text table.now program.now trace.now sample.now
        (explored_text table.now program.now graph.now settings nodes.now)) }
{
    table.known();
    members_can_be_printed();
    let mut text = Text::new(alloc);
    text.put(b"UNKNOWN trace\n")?;
    put_trace(&mut text, trace)?;
    put_last(alloc, &mut text, table, program, &trace.last, sample)?;
    put_exploration(
        alloc,
        &mut text,
        table,
        program,
        settings.malloc,
        graph,
        settings.height,
        settings.budget,
        nodes,
    )?;
    Ok(text)
}
