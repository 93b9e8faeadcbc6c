// The edges of the begin and of the end of a call.
ghost use Rattle.std.specs.Prelude.{◌≡◌, ◌++◌, OnOk};
ghost use Rattle.c_links.specs.Chains.{chain};
ghost use Rattle.c_edges.specs.Calling.{enter_links, exit_links};

use crate::calls::{enter_links, exit_links};
use c_cfg::graph::Edge;
use c_links::chain::add_chain;
use c_links::counts::Counts;
use c_types::program::{Arg, Dest, VarRef};
use fore_base::list::List;
use fore_base::memory::Mem;
use std::alloc::Global;

/// A step of a call: the line of the call statement, the location at which the step begins, and the one to which it
/// leads.
#[derive(Clone, Copy)]
pub struct Step {
    pub line: u32,
    pub from: u32,
    pub to: u32,
}

/// Adds the edges of the begin of a call. It leads to the body of its function.
pub fn add_enter(
    alloc: Global,
    edges: &mut List<Edge>,
    counts: &Counts,
    params: &[VarRef],
    args: &[Arg],
    step: Step,
) -> Mem<()>
    ensures { OnOk result (edges.new
        ≡ edges.old ++ chain step.line (enter_links counts.now params.now args.now) step.from step.to) }
{
    let links = enter_links(alloc, counts, params, args)?;
    add_chain(
        alloc,
        edges,
        step.line,
        links.as_slice(),
        step.from,
        step.to,
    )
}

/// Adds the edges of the end of a call. It leads to what comes after this call.
pub fn add_exit(
    alloc: Global,
    edges: &mut List<Edge>,
    counts: &Counts,
    source: &Option<VarRef>,
    params: &[VarRef],
    to: &Option<Dest>,
    step: Step,
) -> Mem<()>
    ensures { OnOk result (edges.new
        ≡ edges.old ++ chain step.line (exit_links counts.now source.now params.now to.now) step.from step.to) }
{
    let Step {
        line,
        from,
        to: after,
    } = step;
    let links = exit_links(alloc, counts, source, params, to)?;
    add_chain(alloc, edges, line, links.as_slice(), from, after)
}
