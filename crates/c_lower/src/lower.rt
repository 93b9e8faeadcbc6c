// The control graph of a program.
ghost use Rattle.std.specs.Prelude.{◌≡◌, ◌<◌, ◌^◌, length, IfOk};
ghost use Rattle.c_cfg.specs.Agreement.{Agrees};
ghost use Rattle.c_cfg.specs.Lowering.{LowerOf};
ghost use Rattle.c_lower.specs.inner.Sites.{program_edges, program_room};

use crate::around::Around;
use crate::site::{Site, Span};
use c_cfg::graph::{Edge, Graph};
use c_links::counts::Counts;
use c_links::failing::edges_in;
use c_links::sums::{count, sum};
use c_types::MallocMode;
use c_types::program::{Func, Stmt, Typed};
use fore_base::list::{Copies, List};
use fore_base::memory::Mem;
use std::alloc::Global;

/// The control graph of a program, where `malloc` has this mode. On any choices both meet the same
/// faults in the same lines, both end, or both want a choice. The graph's locations are numbered in order of the text,
/// those in the middle of a step after the one at which it begins, and the exit is the last. They do not depend on the
/// mode.
///
/// # Errors
///
/// Want of memory, also where there would be more locations, variables or edges than 32 bits count.
pub fn lower(alloc: Global, program: &Typed, mode: MallocMode) -> Mem<Graph>
    ensures lowers { IfOk result (λ graph. LowerOf program.now mode graph) }
    ensures agrees { IfOk result (λ graph. Agrees program.now mode graph) }
{
    let _body = &program.body;
    graph_from(alloc, program, mode)
}

/// The graph of any program.
fn graph_from(alloc: Global, program: &Typed, mode: MallocMode) -> Mem<Graph>
    ensures { IfOk result (λ graph. LowerOf program.now mode graph) }
{
    let counts = counts_of(program)?;
    let body = program.body.as_slice();
    let funcs = &program.funcs;
    let exit = room_of(alloc, counts, funcs, body)?;
    let site = Site {
        alloc,
        counts,
        exit,
        funcs,
        calls: funcs.len(),
    };
    let sure = site.edges_of(body)?;
    let edges = edges_in(alloc, mode, sure)?;
    let heads = site.head_entries(body)?;
    let locations = sum(exit, 1)?;
    let shapes = program.shapes.copy(alloc)?;
    Ok(Graph {
        locations,
        ptrs: counts.all_ptrs(),
        datums: counts.all_datums(),
        edges,
        heads,
        shapes,
    })
}

fn counts_of(program: &Typed) -> Mem<Counts>
    ensures ptrs { IfOk result (λ counts. counts.ptrs ≡ length program.now.vars) }
    ensures datums { IfOk result (λ counts. counts.datums ≡ length program.now.data_vars) }
{
    let ptrs = count(program.vars.len())?;
    let datums = count(program.data_vars.len())?;
    let _all_ptrs = sum(ptrs, 2)?;
    let _all_datums = sum(datums, 2)?;
    Ok(Counts { ptrs, datums })
}

/// How many locations the body of `main` takes, the exit aside.
fn room_of(alloc: Global, counts: Counts, funcs: &List<Func>, body: &[Stmt]) -> Mem<u32>
    ensures { IfOk result (λ room. room ≡ program_room counts funcs.now body.now) }
{
    let site = Site {
        alloc,
        counts,
        exit: 0,
        funcs,
        calls: funcs.len(),
    };
    site.all_room(body)
}

impl<'p> Site<'p> {
    /// All edges of a program with this body, whose first location is 0.
    pub fn edges_of(&self, body: &[Stmt]) -> Mem<List<Edge>>
        ensures edges { IfOk result (λ edges. edges ≡ program_edges self.now body.now) }
        ensures few { IfOk result (λ edges. length edges < 2 ^ 32) }
    {
        let mut edges = List::new(self.alloc);
        let around = Around::in_loop(self.alloc, self.exit, self.exit, self.exit);
        let span = Span {
            from: 0,
            then: self.exit,
        };
        self.add_all(&mut edges, body, &around, span)?;
        let _all = count(edges.len())?;
        Ok(edges)
    }
}
