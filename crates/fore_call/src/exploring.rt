// What an exploration of a program's control graph finds.
ghost use Rattle.std.specs.Prelude.{◌≡◌, IfOk};
ghost use Rattle.c_cfg.specs.Lowering.{LowerOf};
ghost use Rattle.fix_core.specs.Explorations.{IsExplored};
ghost use Rattle.fore_call.specs.inner.Judging.{SettingsFit};

use c_cfg::graph::Graph;
use c_cfg::laws::edges_in_range;
use c_lower::lower::lower;
use c_types::program::Typed;
use fa_core::table::BoxTable;
use fix_engine::{Explored, explore};
use fore_base::memory::Mem;
use fore_words::Settings;
use par_kit::crew::Crew;
use par_kit::gate::Gate;
use std::alloc::Global;
use std::thread::Threads;

/// The program's control graph, and what its exploration by the table finds. Err is want of memory.
pub fn explored<R: Threads + Sync, G: Gate>(
    rt: &R,
    alloc: Global,
    program: &Typed,
    table: &BoxTable,
    settings: Settings,
    gate: &G,
) -> Mem<(Graph, Explored)>
    requires settings { SettingsFit settings }
    requires shapes { table.now.face.shapes ≡ program.now.shapes }
    ensures { IfOk result (λ made. LowerOf program.now settings.malloc made.0
        × IsExplored table.now made.0 settings.height settings.budget made.1) }
{
    let graph = lower(alloc, program, settings.malloc)?;
    edges_in_range(program, settings.malloc, &graph);
    let crew = Crew {
        jobs: settings.jobs as usize,
        gate,
    };
    let found = explore(
        rt,
        alloc,
        &graph,
        table,
        settings.height,
        settings.budget,
        &crew,
    )?;
    Ok((graph, found))
}
