// Laws of control graphs: each is the contract of a function that does nothing.
ghost use Rattle.std.specs.Prelude.{◌≡◌, ℕ, not};
ghost use Rattle.std.specs.List.{list_all};
ghost use Rattle.c_types.specs.declared.mode.MallocMode.TheVariants.{Always};
ghost use Rattle.c_cfg.specs.Agreement.{Agrees};
ghost use Rattle.c_cfg.specs.Graphs.{HasChoiceAsChoose};
ghost use Rattle.c_cfg.specs.Lowering.{LowerOf};
ghost use Rattle.c_cfg.specs.LoopFree.{has_no_loop};
ghost use Rattle.c_cfg.specs.declared.graph.Edge.{Edge};
ghost use Rattle.c_cfg.specs.GraphRuns.{out_of};
ghost use Rattle.c_cfg.specs.Fans.{IsFan, GoesBy, AtMostOne};
ghost use Rattle.c_cfg.specs.Edges.{Passed, gstep};
ghost use Rattle.c_cfg.specs.Alike.{LikePass, IsUnset};
ghost use Rattle.c_types.specs.Runs.{empty_store};
ghost use Rattle.fore_base.specs.Heap.{IsProper, IsAlike};
ghost use Rattle.c_cfg.specs.Ranges.{IsEdgeOf};
ghost use Rattle.c_cfg.specs.Temporaries.{UnsetBetweenSteps};
ghost use Rattle.c_cfg.specs.Visits.{IsNeverStuck};
ghost use Rattle.fore_base.specs.Lists.{IsIn, Every};
ghost use Rattle.fore_base.specs.declared.store.Store.{Store};

use crate::graph::Graph;
use c_types::MallocMode;
use c_types::program::Typed;

/// A program's graph has no loop head exactly if the program has no loop.
pub fn loop_free_graphs(program: &Typed, mode: MallocMode, graph: &Graph)
    ensures { LowerOf program.now mode graph.now → list_all not graph.now.heads ≡ has_no_loop program.now }
{
    let _body = &program.body;
    let _heads = &graph.heads;
}

/// A program, where `malloc` has a mode, and any of its graphs for this mode agree: on the same choices both meet the
/// same faults in the same lines, both end, or both want a choice, and the program does so after no more steps than the
/// graph after edges.
pub fn graphs_agree(program: &Typed, mode: MallocMode, graph: &Graph)
    ensures { LowerOf program.now mode graph.now → Agrees program.now mode graph.now }
{
    let _body = &program.body;
    let _edges = &graph.edges;
}

/// No run of a program's graph is stuck: wherever a run comes, on any choices, no edge begins, or on either choice one
/// of those that begin there is passed, meets a fault, or ends the run.
pub fn runs_are_never_stuck(program: &Typed, mode: MallocMode, graph: &Graph)
    ensures { LowerOf program.now mode graph.now → IsNeverStuck graph.now }
{
    let _body = &program.body;
    let _edges = &graph.edges;
}

/// Between the steps of a program the temporaries of its graph hold nothing: with whatever store a run comes, on any
/// choices, to the exit or to a location at which the step of one of the program's places begins, the two pointers
/// behind the program's are `Uninit`, and the two data `Undefined`.
pub fn temporaries_are_unset_between_steps(program: &Typed, mode: MallocMode, graph: &Graph)
    ensures { (low : LowerOf program.now mode graph.now) → UnsetBetweenSteps program.now mode graph.now low }
{
    let _body = &program.body;
    let _edges = &graph.edges;
}

/// Each number of an edge of a program's graph is in range: it leads from a location to a location; its variables and
/// structs are the graph's; each of its fields is one of some struct, of its kind; a known datum is at most `DATUM`; a
/// choice is 0 or 1, and stands where the instruction wants one.
pub fn edges_in_range(program: &Typed, mode: MallocMode, graph: &Graph)
    ensures { LowerOf program.now mode graph.now → Every (IsEdgeOf graph.now) graph.now.edges }
{
    let _body = &program.body;
    let _edges = &graph.edges;
}

/// Where each `malloc` gives a cell, an edge of a program's graph has a choice exactly if it is a `Choose`.
pub fn choices_stand_at_chooses(program: &Typed, graph: &Graph)
    ensures { LowerOf program.now Always graph.now → Every HasChoiceAsChoose graph.now.edges }
{
    let _body = &program.body;
    let _edges = &graph.edges;
}

/// The edges that leave a location of a program's graph are none, one without a choice, two for the choices 0 and 1 in
/// this order, or the two of a test, of which on each store one is not passed or both meet one fault. So on each store
/// at most one of them of each choice is passed.
pub fn edges_fan_out(program: &Typed, mode: MallocMode, graph: &Graph)
    ensures fans { LowerOf program.now mode graph.now → (location : ℕ)
        → IsFan graph.now.shapes.structs (out_of graph.now.edges location) }
    ensures one { LowerOf program.now mode graph.now → (location : ℕ)
        → AtMostOne graph.now.shapes.structs (out_of graph.now.edges location) }
{
    let _body = &program.body;
    let _edges = &graph.edges;
}

/// A list of edges can be read as a run: where an edge of a program's graph goes somewhere, the run from its location
/// goes by it, on its choice.
pub fn edges_make_runs(program: &Typed, mode: MallocMode, graph: &Graph)
    ensures { LowerOf program.now mode graph.now → (location : ℕ) (edge : Edge) (store : Store)
        → IsIn edge (out_of graph.now.edges location)
        → GoesBy graph.now.shapes.structs (out_of graph.now.edges location) edge store }
{
    let _body = &program.body;
    let _edges = &graph.edges;
}

/// An edge does the same to two proper stores that are alike: both meet one fault, or pass to alike stores, or stop, or
/// are not passed; and it keeps a store proper. A run begins with a proper store, and each store without cells and set
/// variables is alike to it.
pub fn alike_stores_step_alike(graph: &Graph)
    ensures alike { (edge : Edge) (s t : Store) → IsProper s → IsProper t → IsAlike s t
        → LikePass (gstep graph.now.shapes.structs edge s) (gstep graph.now.shapes.structs edge t) }
    ensures keeps { (edge : Edge) (s t : Store) → IsProper s
        → gstep graph.now.shapes.structs edge s ≡ Passed t → IsProper t }
    ensures begins { IsProper (empty_store graph.now.ptrs graph.now.datums)
        × ((s : Store) → IsUnset graph.now.ptrs graph.now.datums s
        → IsAlike s (empty_store graph.now.ptrs graph.now.datums)) }
    ensures chain { (s t u : Store) → IsAlike s t → IsAlike t u → IsAlike s u }
{
    let _edges = &graph.edges;
}
