// Automata from texts.

use crate::digits::{digit, numbers};
use crate::symbols::{spelled_symbol, symbol_of};
use anyhow::{Context, Result};
use fore_base::list::List;
use std::alloc::Global;
use ta_core::auto::{Auto, Rule};

/// The automaton of the text.
///
/// # Errors
///
/// A text that cannot be read, or whose parts make no automaton, and want of memory.
pub fn auto_of(alloc: Global, text: &str) -> Result<Auto> {
    parts_of(alloc, text)?.context("no automaton")
}

/// The automaton of the text. None where its parts make none: a state is not below the number of states, or a rule
/// has more or fewer children than its symbol.
///
/// # Errors
///
/// A text that cannot be read, and want of memory.
pub fn parts_of(alloc: Global, text: &str) -> Result<Option<Auto>> {
    let (states, roots) = head(alloc, text)?;
    let rules = rules(alloc, text)?;
    Ok(Auto::from_parts(states, roots, rules))
}

// The number of states, and the root states.
fn head(alloc: Global, text: &str) -> Result<(u32, List<u32>)> {
    let word = text.split(' ').next().context("no states")?;
    let (states, roots) = word.as_bytes().split_first().context("no states")?;
    let states = digit(*states).context("no number of states")?;
    Ok((states, numbers(alloc, roots)?))
}

// The rules of the words but the first.
fn rules(alloc: Global, text: &str) -> Result<List<Rule>> {
    let mut rules = List::new(alloc);
    for word in text.split(' ').skip(1) {
        rules.push(rule(alloc, word)?)?;
    }
    Ok(rules)
}

fn rule(alloc: Global, word: &str) -> Result<Rule> {
    match word.split_once(']') {
        Some((front, children)) => spelled_rule(alloc, front, children.as_bytes()),
        None => lettered_rule(alloc, word.as_bytes()),
    }
}

// A rule whose symbol stands between brackets.
fn spelled_rule(alloc: Global, front: &str, children: &[u8]) -> Result<Rule> {
    let (state, cell) = front.split_once('[').context("no bracket is opened")?;
    let state = state.as_bytes().first().context("no state")?;
    let (state, children) = ends(alloc, *state, children)?;
    let symbol = spelled_symbol(alloc, cell)?;
    Ok(Rule {
        state,
        symbol,
        children,
    })
}

fn lettered_rule(alloc: Global, word: &[u8]) -> Result<Rule> {
    let (state, rest) = word.split_first().context("no state")?;
    let (letter, children) = rest.split_first().context("no symbol")?;
    let (state, children) = ends(alloc, *state, children)?;
    let symbol = symbol_of(alloc, *letter)?;
    Ok(Rule {
        state,
        symbol,
        children,
    })
}

// The state and the children of a rule.
fn ends(alloc: Global, state: u8, children: &[u8]) -> Result<(u32, List<u32>)> {
    let state = digit(state).context("a state is no digit")?;
    Ok((state, numbers(alloc, children)?))
}
