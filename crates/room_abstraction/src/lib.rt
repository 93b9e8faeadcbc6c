//! Rows of abstraction and of covering: quotients by height, and which forests cover which.
//!
//! Forests stand in a row as `row_forests` reads them.
#![tactic(auto)]

mod abstracting;
mod covering;

use abstracting::answer_on_quotients;
use anyhow::{Context, Result};
use covering::answer_on_covers;
use std::alloc::Global;
use std::thread::Threads;

/// The answer to a row of this head and these texts.
pub fn answer<R: Threads + Sync>(
    rt: &R,
    alloc: Global,
    head: &str,
    texts: &[&str],
) -> Result<String> {
    let (first, others) = texts.split_first().context("no text")?;
    match head.split_once(' ') {
        Some((kind, height)) => answer_on_quotients(rt, alloc, kind, height, first, others),
        None => answer_on_covers(rt, alloc, head, first, others),
    }
}
