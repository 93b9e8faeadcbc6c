// explore: the nodes of an exploration of a graph, by the boxes that a second text names, and how it ends.

ghost use Rattle.std.specs.Prelude.{◌≡◌, IfOk};

use crate::graphs::graph_of;
use crate::tracing::{put_nodes, put_trace};
use anyhow::{Context, Result, bail};
use c_cfg::graph::Graph;
use c_cfg::ranges::are_edges_of;
use fa_core::table::BoxTable;
use fix_core::Explored;
use fix_engine::explore;
use par_kit::crew::Crew;
use par_kit::gate::NoGate;
use room_steps::table_of;
use std::alloc::Global;
use std::thread::Threads;

// How the exploration of the graph ends; the numbers are the height and the budget, and then, if more than one, the
// jobs.
pub fn explore_graph<R: Threads + Sync>(
    rt: &R,
    alloc: Global,
    numbers: &str,
    texts: &[&str],
) -> Result<String> {
    let (height, rest) = numbers.split_once(' ').context("no budget")?;
    let (budget, jobs) = rest.split_once(' ').unwrap_or((rest, "1"));
    let height = height.parse::<u32>()?;
    let budget = budget.parse::<u32>()?;
    let jobs = jobs.parse::<usize>()?;
    let found = explored_texts(rt, alloc, texts, height, budget, jobs)?;
    shown(alloc, &found)
}

fn explored_texts<R: Threads + Sync>(
    rt: &R,
    alloc: Global,
    texts: &[&str],
    height: u32,
    budget: u32,
    jobs: usize,
) -> Result<Explored> {
    let (text, boxes) = texts.split_first().context("no graph")?;
    let graph = graph_of(alloc, text)?;
    explored_over(rt, alloc, &graph, boxes, height, budget, jobs)
}

fn explored_over<R: Threads + Sync>(
    rt: &R,
    alloc: Global,
    graph: &Graph,
    boxes: &[&str],
    height: u32,
    budget: u32,
    jobs: usize,
) -> Result<Explored> {
    let table = table_for(alloc, graph, boxes)?;
    explored(rt, alloc, graph, &table, height, budget, jobs)
}

// The boxes that the text names, over the structs of the graph; without a text there are none.
fn table_for(alloc: Global, graph: &Graph, texts: &[&str]) -> Result<BoxTable>
    ensures { IfOk result (λ table. table.face.shapes ≡ graph.now.shapes) }
{
    match texts.split_first() {
        Some((name, _)) => table_of(alloc, name, &graph.shapes),
        None => Ok(BoxTable::empty(alloc, &graph.shapes)?),
    }
}

fn explored<R: Threads + Sync>(
    rt: &R,
    alloc: Global,
    graph: &Graph,
    table: &BoxTable,
    height: u32,
    budget: u32,
    jobs: usize,
) -> Result<Explored>
    requires { table.now.face.shapes ≡ graph.now.shapes }
{
    if !are_edges_of(graph) {
        bail!("a number of an edge is out of range");
    }
    if height < 1 || 4 < height || budget < 1 {
        bail!("no such height or budget");
    }
    if jobs < 1 || 64 < jobs {
        bail!("no such number of jobs");
    }
    let crew = Crew {
        jobs,
        gate: &NoGate,
    };
    Ok(explore(rt, alloc, graph, table, height, budget, &crew)?)
}

fn shown(alloc: Global, found: &Explored) -> Result<String> {
    let mut text = String::new(alloc);
    put_found(alloc, &mut text, found)?;
    Ok(text)
}

fn put_found(alloc: Global, text: &mut String, found: &Explored) -> Result<()> {
    match found {
        Explored::Closed { nodes } => put_nodes(alloc, text, "closed", nodes),
        Explored::Spent { nodes } => put_nodes(alloc, text, "spent", nodes),
        Explored::Faulty { nodes, trace } => {
            put_nodes(alloc, text, "faulty", nodes)?;
            put_trace(text, trace)
        }
    }
}
