// Kinds of rows on languages and trees.
//
// - `accepts | AUTOMATON | TREE | ..`: those of the trees that the automaton accepts.
// - `empty | AUTOMATON`: whether it accepts no tree.
// - `smallest | AUTOMATON`: its smallest tree; none where there is no tree, no memory where no memory holds one.
// - `same | TREE | TREE`: whether both are one.
// - `top | TREE`: how the top of the tree is printed for those who look for errors.

use crate::given::tree;
use anyhow::{Context, Result};
use row_automata::text_of_tree;
use row_kit::{said, yes_or_no};
use std::alloc::Global;
use ta_core::accepting::accepts;
use ta_core::auto::Auto;
use ta_core::smallest::smallest_tree;

pub fn accepted(alloc: Global, auto: &Auto, trees: &[&str]) -> Result<String> {
    let mut text = String::new(alloc);
    for tree in trees {
        if does_accept(alloc, auto, tree)? {
            put_word(&mut text, tree)?;
        }
    }
    if text.is_empty() {
        text.push_str("none")?;
    }
    Ok(text)
}

// Whether the automaton accepts the tree of the text.
pub fn does_accept(alloc: Global, auto: &Auto, text: &str) -> Result<bool> {
    let tree = tree(alloc, text)?;
    Ok(accepts(alloc, auto, &tree)?)
}

fn put_word(text: &mut String, word: &str) -> Result<()> {
    if !text.is_empty() {
        text.push_str(", ")?;
    }
    text.push_str(word)?;
    Ok(())
}

pub fn smallest(alloc: Global, auto: &Auto) -> Result<String> {
    match smallest_tree(alloc, auto) {
        Ok(Some(tree)) => text_of_tree(alloc, &tree),
        Ok(None) => said(alloc, "none"),
        Err(_) => said(alloc, "no memory"),
    }
}

pub fn sameness(alloc: Global, first: &str, others: &[&str]) -> Result<String> {
    let other = others.first().context("no other tree")?;
    said(alloc, yes_or_no(are_same(alloc, first, other)?))
}

fn are_same(alloc: Global, left: &str, right: &str) -> Result<bool> {
    let left = tree(alloc, left)?;
    let right = tree(alloc, right)?;
    Ok(left.is_same(alloc, &right)?)
}

pub fn top(alloc: Global, first: &str) -> Result<String> {
    let tree = tree(alloc, first)?;
    Ok(format!(in alloc; "{tree:?}")?)
}
