// The automata and the trees of rows: written out, or large ones by a name and a size.

use crate::large::{levels, shape_of, spine, waiting};
use anyhow::{Context, Result};
use row_automata::{auto_of, tree_of};
use std::alloc::Global;
use ta_core::auto::Auto;
use ta_core::smallest::smallest_tree;
use ta_core::tree::Tree;
use ta_core::trimming::trim;

// The automaton of the text; behind the word `trimmed`, what is left of it.
pub fn auto(alloc: Global, text: &str) -> Result<Auto> {
    match text.strip_prefix("trimmed ") {
        Some(rest) => trimmed(alloc, rest),
        None => whole(alloc, text),
    }
}

// The automaton of the second text of a row.
pub fn other_auto(alloc: Global, others: &[&str]) -> Result<Auto> {
    auto(alloc, others.first().context("no other automaton")?)
}

fn trimmed(alloc: Global, text: &str) -> Result<Auto> {
    let auto = whole(alloc, text)?;
    Ok(trim(alloc, &auto)?)
}

fn whole(alloc: Global, text: &str) -> Result<Auto> {
    match text.split_once(' ') {
        Some((name, size)) => named(alloc, text, name, size),
        None => auto_of(alloc, text),
    }
}

fn named(alloc: Global, text: &str, name: &str, size: &str) -> Result<Auto> {
    if name == "waiting" {
        return waiting(alloc, size.parse::<u32>()?);
    }
    match shape_of(name) {
        Some(shape) => levels(alloc, size.parse::<u32>()?, shape),
        None => auto_of(alloc, text),
    }
}

// The tree of the text; behind the word `smallest`, the smallest one of an automaton.
pub fn tree(alloc: Global, text: &str) -> Result<Tree> {
    match text.split_once(' ') {
        Some(("smallest", rest)) => smallest(alloc, rest),
        Some((name, size)) => {
            let shape = shape_of(name).context("no such tree")?;
            spine(alloc, size.parse::<u32>()?, shape)
        }
        None => tree_of(alloc, text),
    }
}

fn smallest(alloc: Global, text: &str) -> Result<Tree> {
    let auto = auto(alloc, text)?;
    smallest_tree(alloc, &auto)?.context("no tree")
}
