// Automata of many states, and trees of many levels, by a name and a size.

use anyhow::{Context, Result, bail};
use fore_base::list::List;
use row_automata::symbol_of;
use std::alloc::Global;
use ta_core::auto::{Auto, Rule};
use ta_core::symbol::Symbol;
use ta_core::tree::Tree;

// Where the next level stands below a cell: alone, at the first or the second child with a leaf beside it, or at both.
#[derive(Clone, Copy)]
pub enum Shape {
    List,
    Left,
    Right,
    Full,
}

// The shape of this name.
pub fn shape_of(name: &str) -> Option<Shape> {
    match name {
        "list" => Some(Shape::List),
        "left" => Some(Shape::Left),
        "right" => Some(Shape::Right),
        "full" => Some(Shape::Full),
        _ => None,
    }
}

// The symbol of a cell: of one pointer in a list, and else of two.
fn cell(alloc: Global, shape: Shape) -> Result<Symbol> {
    match shape {
        Shape::List => symbol_of(alloc, b'n'),
        _ => symbol_of(alloc, b'f'),
    }
}

// The automaton of one tree, that of so many levels: 0 = a, and each further state has a cell over the one before. The
// last one is the root state.
pub fn levels(alloc: Global, count: u32, shape: Shape) -> Result<Auto> {
    let mut rules = List::new(alloc);
    rules.push(leaf_rule(alloc, 0))?;
    for below in 0..count {
        rules.push(level(alloc, below, shape)?)?;
    }
    let states = count.checked_add(1).context("too many levels")?;
    let roots = List::filled(alloc, count, 1)?;
    Auto::from_parts(states, roots, rules).context("no automaton")
}

fn leaf_rule(alloc: Global, state: u32) -> Rule {
    Rule {
        state,
        symbol: Symbol::Null,
        children: List::new(alloc),
    }
}

// The rule of the state after the one below.
fn level(alloc: Global, below: u32, shape: Shape) -> Result<Rule> {
    let state = below.checked_add(1).context("too many levels")?;
    let children = match shape {
        Shape::List => List::from_slice(alloc, &[below])?,
        Shape::Left => List::from_slice(alloc, &[below, 0])?,
        Shape::Right => List::from_slice(alloc, &[0, below])?,
        Shape::Full => List::from_slice(alloc, &[below, below])?,
    };
    Ok(Rule {
        state,
        symbol: cell(alloc, shape)?,
        children,
    })
}

// 0 = n(1), 1 = n(2), .., up to the last of so many states, which is a: each rule stands before the one that it waits
// for. Behind them one more state, a loop that no tree uses. The first and the last state are root states.
pub fn waiting(alloc: Global, count: u32) -> Result<Auto> {
    let last = count.checked_sub(1).context("no state")?;
    let mut rules = List::new(alloc);
    for state in 0..last {
        rules.push(over(alloc, state, state + 1)?)?;
    }
    rules.push(leaf_rule(alloc, last))?;
    rules.push(over(alloc, count, count)?)?;
    let states = count.checked_add(1).context("too many states")?;
    let roots = List::from_slice(alloc, &[0, count])?;
    Auto::from_parts(states, roots, rules).context("no automaton")
}

fn over(alloc: Global, state: u32, below: u32) -> Result<Rule> {
    let children = List::filled(alloc, below, 1)?;
    Ok(Rule {
        state,
        symbol: symbol_of(alloc, b'n')?,
        children,
    })
}

// The tree of so many levels, made from its leaf upward.
pub fn spine(alloc: Global, count: u32, shape: Shape) -> Result<Tree> {
    let mut tree = leaf(alloc);
    for _ in 0..count {
        let children = beside(alloc, tree, shape)?;
        tree = Tree {
            symbol: cell(alloc, shape)?,
            children,
        };
    }
    Ok(tree)
}

fn leaf(alloc: Global) -> Tree {
    Tree {
        symbol: Symbol::Null,
        children: List::new(alloc),
    }
}

// The children of the next cell, of which one is the tree.
fn beside(alloc: Global, tree: Tree, shape: Shape) -> Result<List<Tree>> {
    let mut children = List::new(alloc);
    match shape {
        Shape::List => children.push(tree)?,
        Shape::Left => {
            children.push(tree)?;
            children.push(leaf(alloc))?;
        }
        Shape::Right => {
            children.push(leaf(alloc))?;
            children.push(tree)?;
        }
        Shape::Full => bail!("a full tree is no spine"),
    }
    Ok(children)
}
