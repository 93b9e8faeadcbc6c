// step, boxed-step: what an edge makes of a canonical forest. For a boxed-step, the second text names the boxes.

ghost use Rattle.std.specs.Prelude.{◌≡◌, ◌↔◌, length, IsTrue};
ghost use Rattle.fa_core.specs.Canonical.{IsCanonical};
ghost use Rattle.c_cfg.specs.Ranges.{EdgeFits};

use crate::boxes::{no_boxes, table_named};
use crate::edges::edge;
use crate::telling::told;
use anyhow::{Context, Result, bail};
use c_cfg::graph::Edge;
use c_cfg::ranges::fits;
use fa_core::table::BoxTable;
use fa_order::is_canonical;
use fa_sound::Sound;
use par_kit::crew::Crew;
use par_kit::gate::NoGate;
use row_forests::boxed_over;
use std::alloc::Global;
use std::thread::Threads;
use sym_step::posting::post;
use sym_step::posts::Post;

// Which of the further texts the forests behind the edge are, and at which of them the faults are met.
pub fn step<R: Threads + Sync>(
    rt: &R,
    alloc: Global,
    what: &str,
    texts: &[&str],
) -> Result<String> {
    let (first, wanted) = texts.split_first().context("no forest")?;
    let table = no_boxes(alloc)?;
    told_over(rt, alloc, what, first, &table, wanted)
}

// The same by boxes.
pub fn boxed_step<R: Threads + Sync>(
    rt: &R,
    alloc: Global,
    what: &str,
    texts: &[&str],
) -> Result<String> {
    let (first, others) = texts.split_first().context("no forest")?;
    let (boxes, wanted) = others.split_first().context("no boxes")?;
    let table = table_named(alloc, boxes)?;
    told_over(rt, alloc, what, first, &table, wanted)
}

fn told_over<R: Threads + Sync>(
    rt: &R,
    alloc: Global,
    what: &str,
    text: &str,
    table: &BoxTable,
    wanted: &[&str],
) -> Result<String> {
    let made = made_over(rt, alloc, what, text, table)?;
    told(alloc, &made, wanted)
}

fn made_over<R: Threads + Sync>(
    rt: &R,
    alloc: Global,
    what: &str,
    text: &str,
    table: &BoxTable,
) -> Result<Post> {
    let edge = edge(alloc, 0, 1, what)?;
    stepped(rt, alloc, &edge, text, table)
}

fn stepped<R: Threads + Sync>(
    rt: &R,
    alloc: Global,
    edge: &Edge,
    text: &str,
    table: &BoxTable,
) -> Result<Post> {
    let forest = boxed_over(alloc, table.face(), text)?;
    passed(rt, alloc, &forest, edge, table)
}

fn passed<R: Threads + Sync>(
    rt: &R,
    alloc: Global,
    forest: &Sound,
    edge: &Edge,
    table: &BoxTable,
) -> Result<Post>
    requires { forest.now.face ≡ table.now.face }
{
    if !fits_forest(edge, forest) {
        bail!("a number out of range");
    }
    if !is_canonical(alloc, forest)? {
        bail!("not canonical");
    }
    posted(rt, alloc, forest, edge, table)
}

// Whether the numbers of the edge are in range for the forest.
fn fits_forest(edge: &Edge, forest: &Sound) -> bool
    ensures { IsTrue result ↔ EdgeFits (length forest.now.forest.vars) (length forest.now.forest.data_vars)
        forest.now.face.shapes.structs edge.now }
{
    let vars = forest.forest().vars.len();
    let data_vars = forest.forest().data_vars.len();
    fits(
        edge,
        vars,
        data_vars,
        forest.face().shapes.structs.as_slice(),
    )
}

fn posted<R: Threads + Sync>(
    rt: &R,
    alloc: Global,
    forest: &Sound,
    edge: &Edge,
    table: &BoxTable,
) -> Result<Post>
    requires face { forest.now.face ≡ table.now.face }
    requires canonical { IsCanonical forest.now.face forest.now.forest }
    requires fits { EdgeFits (length forest.now.forest.vars) (length forest.now.forest.data_vars)
        forest.now.face.shapes.structs edge.now }
{
    let crew = Crew {
        jobs: 1,
        gate: &NoGate,
    };
    Ok(post(rt, alloc, forest, edge, table, &crew)?)
}
