//! Rows of steps, joins and edits: what an edge makes of a forest, what is left of forests that are joined, and how a
//! forest looks after one thing was changed.
#![tactic(auto)]

mod boxes;
mod changes;
mod edges;
mod editing;
mod joining;
mod showing;
mod stepping;
mod telling;

use anyhow::{Result, bail};
pub use boxes::table_of;
pub use edges::edge;
use std::alloc::Global;
use std::thread::Threads;

/// The answer to a row of this head and these texts.
pub fn answer<R: Threads + Sync>(
    rt: &R,
    alloc: Global,
    head: &str,
    texts: &[&str],
) -> Result<String> {
    let (kind, what) = head.split_once(' ').unwrap_or((head, ""));
    match kind {
        "step" => stepping::step(rt, alloc, what, texts),
        "boxed-step" => stepping::boxed_step(rt, alloc, what, texts),
        "join" => joining::join(rt, alloc, what, texts),
        "edit" => editing::edit(alloc, texts),
        _ => bail!("no such kind"),
    }
}
