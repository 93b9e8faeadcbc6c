// Nodes and traces of explorations, as texts.
//
// A node is its location, its parent, the edge by which it was reached, with = and the choice behind it where there
// is one, and its pointer variables; * says that it was abstracted, and + that folds are due.

ghost use Rattle.std.specs.Prelude.{◌<◌, length};

use anyhow::Result;
use fix_core::{AbsTrace, NodeHead, Nodes};
use row_forests::put_targets;
use std::alloc::Global;

// Adds the nodes, behind a word.
pub fn put_nodes(alloc: Global, text: &mut String, word: &str, nodes: &Nodes) -> Result<()> {
    text.push_str(word)?;
    let mut before = ": ";
    for node in 0..nodes.len() {
        text.push_str(before)?;
        put_node(alloc, text, nodes, node)?;
        before = ", ";
    }
    Ok(())
}

fn put_node(alloc: Global, text: &mut String, nodes: &Nodes, node: u32) -> Result<()>
    requires { node < length nodes.now }
{
    put_head(text, nodes.head(node))?;
    put_forest(alloc, text, nodes, node)?;
    if is_abstracted(alloc, nodes, node)? {
        text.push_str(" *")?;
    }
    if !nodes.folds(node).is_empty() {
        text.push_str(" +")?;
    }
    Ok(())
}

fn put_forest(alloc: Global, text: &mut String, nodes: &Nodes, node: u32) -> Result<()>
    requires { node < length nodes.now }
{
    let forest = nodes.forest(alloc, node)?;
    put_targets(text, forest.forest().vars.as_slice())
}

fn is_abstracted(alloc: Global, nodes: &Nodes, node: u32) -> Result<bool>
    requires { node < length nodes.now }
{
    let middle = nodes.middle(alloc, node)?;
    Ok(middle.is_some())
}

fn put_head(text: &mut String, head: &NodeHead) -> Result<()> {
    write!(text, "{} ", head.location)?;
    put_number(text, head.parent)?;
    text.push(' ')?;
    put_number(text, head.edge)?;
    if let Some(choice) = head.choice {
        write!(text, "={choice}")?;
    }
    text.push(' ')?;
    Ok(())
}

fn put_number(text: &mut String, number: Option<u32>) -> Result<()> {
    match number {
        Some(number) => write!(text, "{number}")?,
        None => text.push('-')?,
    }
    Ok(())
}

// Adds the trace, behind a semicolon.
pub fn put_trace(text: &mut String, trace: &AbsTrace) -> Result<()> {
    write!(text, "; {:?} at ", trace.fault)?;
    put_targets(text, trace.last.forest().vars.as_slice())?;
    write!(text, ", edge {}, nodes", trace.edge)?;
    put_way(text, trace.nodes.as_slice())?;
    text.push_str(", choices ")?;
    put_choices(text, trace.choices.as_slice())?;
    write!(text, ", steps {}", trace.steps)?;
    Ok(())
}

fn put_way(text: &mut String, nodes: &[u32]) -> Result<()> {
    for node in nodes {
        write!(text, " {node}")?;
    }
    Ok(())
}

fn put_choices(text: &mut String, choices: &[u8]) -> Result<()> {
    if choices.is_empty() {
        text.push('-')?;
    }
    for choice in choices {
        write!(text, "{choice}")?;
    }
    Ok(())
}
