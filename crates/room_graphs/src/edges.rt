// What graphs are, as texts.

use crate::printing::{put_edge, put_heads, put_var};
use crate::programs::graph_of;
use anyhow::{Result, bail};
use c_cfg::graph::Graph;
use c_types::mode::MallocMode;
use fore_base::list::List;
use fore_base::memory::Mem;
use fore_base::text::Text;
use std::alloc::Global;

/// edges: the edges and loop heads of the graph of a body.
pub fn put_edges(alloc: Global, out: &mut Text, mode: MallocMode, body: &[u8]) -> Result<()> {
    let graph = graph_of(alloc, mode, body)?;
    put_graph(out, &graph)
}

fn put_graph(out: &mut Text, graph: &Graph) -> Result<()> {
    for edge in graph.edges.as_slice() {
        put_edge(out, edge)?;
    }
    put_heads(out, graph)?;
    Ok(())
}

/// sizes: how many locations, edges and variables the graph of a body has, and whether it has loops.
pub fn put_sizes(alloc: Global, out: &mut Text, mode: MallocMode, body: &[u8]) -> Result<()> {
    let graph = graph_of(alloc, mode, body)?;
    put_numbers(out, &graph)
}

fn put_numbers(out: &mut Text, graph: &Graph) -> Result<()> {
    put_var(out, b"locations ", graph.locations)?;
    out.put(b" edges ")?;
    out.put_number(graph.edges.len() as u64)?;
    put_var(out, b" pointers ", graph.ptrs)?;
    put_var(out, b" data ", graph.datums)?;
    if !graph.is_loop_free() {
        out.put(b" loops")?;
    }
    Ok(())
}

/// prefixes: how many lists of edges of a graph without loops begin at location 0, each edge where the one before
/// ended, the empty list with them.
pub fn put_prefixes(alloc: Global, out: &mut Text, mode: MallocMode, body: &[u8]) -> Result<()> {
    let graph = graph_of(alloc, mode, body)?;
    put_prefixes_of(alloc, out, &graph)
}

fn put_prefixes_of(alloc: Global, out: &mut Text, graph: &Graph) -> Result<()> {
    if !graph.is_loop_free() {
        bail!("a loop");
    }
    out.put_number(count_prefixes(alloc, graph)?)?;
    Ok(())
}

// No list is longer than there are locations.
fn count_prefixes(alloc: Global, graph: &Graph) -> Mem<u64> {
    let mut ending = List::filled(alloc, 0u64, graph.locations as usize)?;
    ending.set_within(0, 1);
    let mut all: u64 = 0;
    for _ in 0..graph.locations {
        all = all.saturating_add(sum_of(ending.as_slice()));
        ending = one_longer(alloc, graph, &ending)?;
    }
    Ok(all)
}

/// How many lists that are one edge longer end at each location.
fn one_longer(alloc: Global, graph: &Graph, ending: &List<u64>) -> Mem<List<u64>> {
    let mut longer = List::filled(alloc, 0u64, graph.locations as usize)?;
    for edge in graph.edges.as_slice() {
        let before = ending.get_or(edge.from as usize, 0);
        let others = longer.get_or(edge.to as usize, 0);
        longer.set_within(edge.to as usize, others.saturating_add(before));
    }
    Ok(longer)
}

fn sum_of(counts: &[u64]) -> u64 {
    let mut sum: u64 = 0;
    for count in counts {
        sum = sum.saturating_add(*count);
    }
    sum
}
