//! Rows of explorations: the nodes of an exploration of a graph, how it ends, and its trace.
//!
//! A row is `explore HEIGHT BUDGET` and, if there are several, how many jobs; a graph (`graphs`); and, if there are
//! boxes, the name of their file, as `room_steps` has it.
#![tactic(auto)]

mod exploring;
mod graphs;
mod tracing;

use anyhow::{Result, bail};
use exploring::explore_graph;
use std::alloc::Global;
use std::thread::Threads;

/// The answer to a row of this head and these texts.
pub fn answer<R: Threads + Sync>(
    rt: &R,
    alloc: Global,
    head: &str,
    texts: &[&str],
) -> Result<String> {
    let (kind, numbers) = head.split_once(' ').unwrap_or((head, ""));
    match kind {
        "explore" => explore_graph(rt, alloc, numbers, texts),
        _ => bail!("no such kind"),
    }
}
