// Control graphs, written as short texts.
//
// A graph is parts with ` / ` between: how many pointer variables and how many data variables it has, with a letter
// for each location, h for a loop head, and then its edges, each the locations from which and to which it leads, and
// what it does. Its structs are those of the forests.

ghost use Rattle.std.specs.Prelude.{◌≡◌, ◌≤◌, length, IfOk};
ghost use Rattle.fore_base.specs.Lists.{Every};
ghost use Rattle.c_cfg.specs.Graphs.{HasItsChoice};

use anyhow::{Context, Result, bail};
use c_cfg::graph::{Edge, Graph};
use c_cfg::ranges::has_its_choice;
use fore_base::list::List;
use fore_base::shape::Shapes;
use room_steps::edge;
use row_forests::face;
use std::alloc::Global;

// The graph of the text.
pub fn graph_of(alloc: Global, text: &str) -> Result<Graph> {
    let first = text.split(" / ").next().context("no variables")?;
    let (ptrs, rest) = first.split_once(' ').context("no data variables")?;
    let (datums, letters) = rest.split_once(' ').context("no locations")?;
    let ptrs = ptrs.parse::<u32>()?;
    let datums = datums.parse::<u32>()?;
    let heads = heads_of(alloc, letters)?;
    graph(alloc, ptrs, datums, heads, text)
}

fn graph(alloc: Global, ptrs: u32, datums: u32, heads: List<bool>, text: &str) -> Result<Graph> {
    let edges = edges_of(alloc, text)?;
    if heads.is_empty() || heads.len() > 100 || edges.len() > 100 {
        bail!("no location, or too many of them or of edges");
    }
    with_structs(alloc, ptrs, datums, edges, heads)
}

fn with_structs(
    alloc: Global,
    ptrs: u32,
    datums: u32,
    edges: List<Edge>,
    heads: List<bool>,
) -> Result<Graph>
    requires edges { Every HasItsChoice edges }
    requires heads { (1 ≤ length heads) × (length heads ≤ 100) }
    requires few { length edges ≤ 100 }
{
    let shapes = shapes(alloc)?;
    Ok(Graph {
        locations: heads.len() as u32,
        ptrs,
        datums,
        edges,
        heads,
        shapes,
    })
}

fn shapes(alloc: Global) -> Result<Shapes> {
    let face = face(alloc)?;
    Ok(face.shapes)
}

fn heads_of(alloc: Global, letters: &str) -> Result<List<bool>> {
    let mut heads = List::new(alloc);
    for letter in letters.as_bytes() {
        heads.push(*letter == b'h')?;
    }
    Ok(heads)
}

// The edges of the parts but the first.
fn edges_of(alloc: Global, text: &str) -> Result<List<Edge>>
    ensures { IfOk result (Every HasItsChoice) }
{
    let mut edges = List::new(alloc);
    for part in text.split(" / ").skip(1) {
        let made = edge_of(alloc, part)?;
        edges.push(made)?;
    }
    Ok(edges)
}

fn edge_of(alloc: Global, text: &str) -> Result<Edge>
    ensures { IfOk result HasItsChoice }
{
    let (from, rest) = text.split_once(' ').context("no location")?;
    let (to, what) = rest.split_once(' ').context("one location alone")?;
    let made = edge(alloc, from.parse::<u32>()?, to.parse::<u32>()?, what)?;
    if !has_its_choice(&made) {
        bail!("no choice, or one that is not taken");
    }
    Ok(made)
}
