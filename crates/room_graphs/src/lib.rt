//! Rows of control graphs and of runs.
#![tactic(auto)]

mod edges;
mod outcomes;
mod printing;
mod programs;
mod running;

use crate::edges::{put_edges, put_prefixes, put_sizes};
use crate::running::{put_alike, put_run, put_steps};
use anyhow::{Context, Result, bail};
use c_types::mode::MallocMode;
use fore_base::text::Text;
use row_texts::{read_text, shown};
use std::alloc::Global;

/// The answer to a row of this head and these texts.
pub fn answer(alloc: Global, head: &str, texts: &[&str]) -> Result<String> {
    let row = texts.first().context("no text")?;
    let text = read_text(alloc, row)?;
    let mut out = Text::new(alloc);
    let (mode, head) = mode_of(head);
    match head.split_once(' ') {
        Some((kind, words)) => put_course(alloc, &mut out, mode, kind, words, text.as_slice())?,
        None => put_graph(alloc, &mut out, mode, head, text.as_slice())?,
    }
    shown(alloc, &out)
}

/// The mode of `malloc` that a row has, and the row's head without it.
fn mode_of(head: &str) -> (MallocMode, &str) {
    match head.strip_prefix("null_") {
        Some(rest) => (MallocMode::MayFail, rest),
        None => (MallocMode::Always, head),
    }
}

/// Puts what a program or its graph does on choices.
fn put_course(
    alloc: Global,
    out: &mut Text,
    mode: MallocMode,
    kind: &str,
    words: &str,
    body: &[u8],
) -> Result<()> {
    match kind {
        "steps" => put_steps(alloc, out, mode, words, body),
        _ => put_run(alloc, out, mode, kind, words, body),
    }
}

/// Puts what the graph of a body is.
fn put_graph(
    alloc: Global,
    out: &mut Text,
    mode: MallocMode,
    kind: &str,
    body: &[u8],
) -> Result<()> {
    match kind {
        "edges" => put_edges(alloc, out, mode, body),
        "sizes" => put_sizes(alloc, out, mode, body),
        "prefixes" => put_prefixes(alloc, out, mode, body),
        "alike" => put_alike(alloc, out, mode, body),
        _ => bail!("no such kind"),
    }
}
