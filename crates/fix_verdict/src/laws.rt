// Laws of explorations: each is the contract of a function that does nothing.
ghost use Rattle.std.specs.Prelude.{◌≡◌, ℕ, List};
ghost use Rattle.c_cfg.specs.Lowering.{LowerOf};
ghost use Rattle.c_types.specs.Over.{IsFault};
ghost use Rattle.c_types.specs.Runs.{run};
ghost use Rattle.fix_core.specs.Explorations.{IsClosed};
ghost use Rattle.fix_core.specs.declared.nodes.Node.{Node};

use c_cfg::graph::Graph;
use c_cfg::laws::graphs_agree;
use c_types::mode::MallocMode;
use c_types::program::Typed;
use fa_core::table::BoxTable;

/// Where some nodes of the graph of a program are closed, no run of the program, whose `malloc`
/// answers by the same mode, meets a fault: on no choices, after no number of steps. The graph's structs are the
/// table's.
pub fn closed_is_safe(program: &Typed, mode: MallocMode, graph: &Graph, table: &BoxTable)
    ensures { LowerOf program.now mode graph.now
        → graph.now.shapes ≡ table.now.face.shapes → (nodes : List Node)
        → IsClosed table.now graph.now nodes → (choices : List ℕ) (n : ℕ) → IsFault (run program.now mode choices n)
        → ⊥ }
{
    graphs_agree(program, mode, graph);
    let _table = table;
}
