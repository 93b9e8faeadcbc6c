//! The report on a generated program.
ghost use Rattle.std.specs.Prelude.{◌≡◌, ◌++◌, IfOk, OnOk};
ghost use Rattle.c_cfg.specs.Lowering.{LowerOf};
ghost use Rattle.fix_core.specs.Explorations.{IsExplored};
ghost use Rattle.fore_report.specs.Summaries.{
  IsSummaryOf,
  kept,
  kept_line,
  kind_name,
  summary_text,
  verdict_line,
  verdict_of,
};

use crate::texts::put_counted;
use crate::verdict::Verdict;
use c_cfg::graph::Graph;
use c_types::program::Typed;
use fa_core::table::BoxTable;
use fix_core::Explored;
use fix_verdict::{Verdict as Finding, judge};
use fore_base::memory::Mem;
use fore_base::text::Text;
use fore_words::{Kind, Settings};
use std::alloc::Global;

/// The verdict on what an exploration of a generated program's control graph found, with its report, whole: what was
/// generated, how many lines it has, the verdict, and how many abstract states were kept, which is left out where a
/// fault was found. Err is want of memory.
pub fn summary(
    alloc: Global,
    kind: Kind,
    phases: u32,
    lines: usize,
    found: &Explored,
    settings: Settings,
    table: &BoxTable,
    graph: &Graph,
    program: &Typed,
) -> Mem<(Verdict, Text)>
    requires shapes { graph.now.shapes ≡ table.now.face.shapes }
    requires lowered { LowerOf program.now settings.malloc graph.now }
    requires explored { IsExplored table.now graph.now settings.height settings.budget found.now }
    ensures { IfOk result (λ made.
        IsSummaryOf table.now program.now settings kind phases lines graph.now found.now made.0 made.1) }
{
    let finding = judge(
        alloc,
        program,
        settings.malloc,
        graph,
        table,
        settings.height,
        settings.budget,
        found,
    )?;
    let text = summary_text(alloc, kind, phases, lines, &finding, kept(found))?;
    Ok((verdict_of(&finding), text))
}

/// How many abstract states were kept.
fn kept(found: &Explored) -> u32
    ensures { result ≡ kept found.now }
{
    match found {
        Explored::Closed { nodes } | Explored::Faulty { nodes, .. } | Explored::Spent { nodes } => {
            nodes.len()
        }
    }
}

/// What the report says of a verdict.
fn verdict_of(finding: &Finding) -> Verdict
    ensures { result ≡ verdict_of finding.now }
{
    match finding {
        Finding::Safe => Verdict::Safe,
        Finding::Unsafe { .. } => Verdict::Unsafe,
        Finding::FullBudget | Finding::LooseTrace { .. } => Verdict::Unknown,
    }
}

/// The report, whole. Err is want of memory.
fn summary_text(
    alloc: Global,
    kind: Kind,
    phases: u32,
    lines: usize,
    finding: &Finding,
    nodes: u32,
) -> Mem<Text>
    ensures { IfOk result (λ text. text ≡ summary_text kind phases lines finding.now nodes) }
{
    let mut text = Text::new(alloc);
    text.put(b"gen ")?;
    text.put(kind_name(kind))?;
    put_counted(&mut text, b" ", phases as u64)?;
    put_counted(&mut text, b"lines ", lines as u64)?;
    text.put(verdict_line(finding))?;
    put_kept(&mut text, finding, nodes)?;
    Ok(text)
}

/// The name of a kind.
fn kind_name(kind: Kind) -> &'static [u8]
    ensures { result.now ≡ kind_name kind }
{
    match kind {
        Kind::ListPhases => b"list",
        Kind::DllPhases => b"dll",
        Kind::TreePhases => b"tree",
    }
}

/// The line of a verdict.
fn verdict_line(finding: &Finding) -> &'static [u8]
    ensures { result.now ≡ verdict_line finding.now }
{
    match finding {
        Finding::Safe => b"SAFE\n",
        Finding::Unsafe { .. } => b"UNSAFE\n",
        Finding::FullBudget => b"UNKNOWN budget\n",
        Finding::LooseTrace { .. } => b"UNKNOWN trace\n",
    }
}

/// The line of how many abstract states were kept; none where a fault was found.
fn put_kept(text: &mut Text, finding: &Finding, nodes: u32) -> Mem<()>
    ensures { OnOk result (text.new ≡ text.old ++ kept_line finding.now nodes) }
{
    match finding {
        Finding::Unsafe { .. } => Ok(()),
        _ => put_counted(text, b"nodes ", nodes as u64),
    }
}
