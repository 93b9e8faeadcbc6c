// Trees from texts, and as texts.

use crate::digits::digit;
use crate::symbols::{put_symbol, symbol_of};
use anyhow::{Context, Result, bail};
use fore_base::list::List;
use std::alloc::Global;
use ta_core::results::last;
use ta_core::tree::Tree;

// One round for each node that is printed, and one more.
const PRINTED_ROUNDS: usize = 1001;

/// The tree of the text.
///
/// # Errors
///
/// A text that cannot be read, and want of memory.
pub fn tree_of(alloc: Global, text: &str) -> Result<Tree> {
    // From the end: the children of a node are then made before it.
    let mut done = List::new(alloc);
    let mut count = 0;
    for byte in text.as_bytes().iter().rev() {
        match digit(*byte) {
            Some(number) => count = number as usize,
            None => {
                let node = node(alloc, *byte, count, &mut done)?;
                done.push(node)?;
            }
        }
    }
    done.pop().context("no tree")
}

// The node over the last trees, which are taken off.
fn node(alloc: Global, letter: u8, count: usize, done: &mut List<Tree>) -> Result<Tree> {
    if count > done.len() {
        bail!("a node without its children");
    }
    let children = last(alloc, done, count)?;
    let symbol = symbol_of(alloc, letter)?;
    Ok(Tree { symbol, children })
}

/// The text of the tree.
///
/// # Errors
///
/// A tree of more than 1000 nodes, and want of memory.
pub fn text_of_tree(alloc: Global, tree: &Tree) -> Result<String> {
    let mut text = String::new(alloc);
    let mut open = List::new(alloc);
    open.push(tree)?;
    for _ in 0..PRINTED_ROUNDS {
        match open.pop() {
            None => return Ok(text),
            Some(node) => put_node(alloc, &mut text, node, &mut open)?,
        }
    }
    bail!("the tree is too large to be printed")
}

// Adds the node, and opens its children, of which the first is the next one.
fn put_node<'a>(
    alloc: Global,
    text: &mut String,
    node: &'a Tree,
    open: &mut List<&'a Tree>,
) -> Result<()> {
    put_symbol(alloc, text, &node.symbol)?;
    write!(text, "{}", node.children.len())?;
    for child in node.children.as_slice().iter().rev() {
        open.push(child)?;
    }
    Ok(())
}
