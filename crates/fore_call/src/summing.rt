// The answer to a wish for a generated program.
ghost use Rattle.std.specs.Prelude.{◌≡◌, IfOk};
ghost use Rattle.c_cfg.specs.Lowering.{LowerOf};
ghost use Rattle.fix_core.specs.Explorations.{IsExplored};
ghost use Rattle.fore_generated.specs.Generated.{gen_settings};
ghost use Rattle.fore_call.specs.inner.Judging.{IsGeneratedAnswer, IsSummedUp};

use crate::exploring::explored;
use c_cfg::graph::Graph;
use fix_core::Explored;
use fore_answer::answer::{Answer, answer_to};
use fore_base::memory::Mem;
use fore_generated::generated::{Generated, gen_settings, generated_program};
use fore_report::summary;
use fore_words::Kind;
use par_kit::gate::Gate;
use std::alloc::Global;
use std::thread::Threads;

/// The answer to a wish for the program of a kind with so many phases: the report on it.
pub fn generated<R: Threads + Sync, G: Gate>(
    rt: &R,
    alloc: Global,
    kind: Kind,
    phases: u32,
    gate: &G,
) -> Answer
    ensures { IsGeneratedAnswer kind phases result }
{
    match generated_program(alloc, kind, phases) {
        Ok(made) => sum_up(rt, alloc, kind, phases, &made, gate),
        Err(fault) => answer_to(fault),
    }
}

/// The answer for a generated program.
fn sum_up<R: Threads + Sync, G: Gate>(
    rt: &R,
    alloc: Global,
    kind: Kind,
    phases: u32,
    made: &Generated,
    gate: &G,
) -> Answer
    requires { made.now.table.face.shapes ≡ made.now.program.shapes }
    ensures { IsSummedUp kind phases made.now.lines made.now.table made.now.program result }
{
    match summed_up(rt, alloc, kind, phases, made, gate) {
        Ok(answer) => answer,
        Err(_) => Answer::NoMemory,
    }
}

/// Explores the program's control graph, and sums up what was found. Err is want of memory.
fn summed_up<R: Threads + Sync, G: Gate>(
    rt: &R,
    alloc: Global,
    kind: Kind,
    phases: u32,
    made: &Generated,
    gate: &G,
) -> Mem<Answer>
    requires { made.now.table.face.shapes ≡ made.now.program.shapes }
    ensures { IfOk result (IsSummedUp kind phases made.now.lines made.now.table made.now.program) }
{
    let settings = gen_settings();
    let program = &made.program;
    let table = &made.table;
    let (graph, found) = explored(rt, alloc, program, table, settings, gate)?;
    told(alloc, kind, phases, made, &graph, &found)
}

/// Sums up what was found of a generated program.
fn told(
    alloc: Global,
    kind: Kind,
    phases: u32,
    made: &Generated,
    graph: &Graph,
    found: &Explored,
) -> Mem<Answer>
    requires shapes { graph.now.shapes ≡ made.now.table.face.shapes }
    requires lowered { LowerOf made.now.program gen_settings.malloc graph.now }
    requires explored { IsExplored made.now.table graph.now gen_settings.height gen_settings.budget found.now }
    ensures { IfOk result (IsSummedUp kind phases made.now.lines made.now.table made.now.program) }
{
    let settings = gen_settings();
    let program = &made.program;
    let table = &made.table;
    let (verdict, text) = summary(
        alloc, kind, phases, made.lines, found, settings, table, graph, program,
    )?;
    Ok(Answer::Verified { verdict, text })
}
