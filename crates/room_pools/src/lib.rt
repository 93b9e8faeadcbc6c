//! Rows of pools: forests kept by the numbers of their components, read again, and compared.
//!
//! Forests stand in a row as `row_forests` reads them.
#![tactic(auto)]

mod asking;
mod keeping;
mod showing;
mod turns;

use anyhow::{Result, bail};
use std::alloc::Global;
use std::thread::Threads;

/// The answer to a row of this head and these texts.
pub fn answer<R: Threads + Sync>(
    rt: &R,
    alloc: Global,
    head: &str,
    texts: &[&str],
) -> Result<String> {
    match head {
        "first" => asking::firsts(rt, alloc, texts),
        "turns" => turns::turns(rt, alloc, texts),
        "keep" => showing::numbers(alloc, texts),
        "pool" => showing::automata(alloc, texts),
        "read" => showing::first(alloc, texts),
        _ => bail!("no such kind"),
    }
}
