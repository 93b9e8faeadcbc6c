// Reports in which each component stands by the least automaton of its trees that reads them from the top.
//
// Of a cell one slot at most ends in cells, so each tree is a chain (`chains`). What may stand in a chain behind its
// first cells is a set of rules: those of the root states at the top, and behind a cell those of the states in which
// cells of this symbol end. Two such sets are one state where the chains that begin in them are the same. States are
// numbered as they are met from the top, and the rules of each stand in the order of their symbols.

use crate::chains::{Rule, rules_of, state_of};
use anyhow::{Context, Result, bail};
use std::alloc::Global;

/// How far chains are looked at, and how many states are printed at most: there are fewer sets of states, and
/// two sets with different chains have different ones that are no longer than there are sets.
const LOOK: usize = 256;

/// The report with the components by their least automata.
///
/// # Errors
///
/// A cell with two slots below which cells stand, or with a slot that has several leaves, an automaton of many states,
/// a text that is no report, and want of memory.
pub fn least_report(alloc: Global, report: &str) -> Result<String> {
    let mut out = String::new(alloc);
    let mut pieces = report.split("\nroot ");
    for line in pieces.next().unwrap_or("").lines() {
        put_line(&mut out, line)?;
    }
    for piece in pieces {
        put_piece(alloc, &mut out, piece)?;
    }
    Ok(out)
}

fn put_line(out: &mut String, line: &str) -> Result<()> {
    write!(out, "{line}\n")?;
    Ok(())
}

/// A component, and the lines behind its rules.
fn put_piece(alloc: Global, out: &mut String, piece: &str) -> Result<()> {
    let (head, rest) = piece.split_once('\n').context("a component without rules")?;
    let rules = rules_of(alloc, rest)?;
    put_component(alloc, out, head, rules.as_slice())?;
    for line in rest.lines() {
        if !line.contains(" = ") {
            put_line(out, line)?;
        }
    }
    Ok(())
}

/// The component of this head: its number and its root states.
fn put_component<'a>(alloc: Global, out: &mut String, head: &str, rules: &'a [Rule]) -> Result<()> {
    let mut words = head.split(' ');
    let number = words.next().context("no number of a component")?;
    write!(out, "root {number} s0\n")?;
    let mut tops = Vec::new(alloc);
    for word in words {
        tops.push(state_of(word)?)?;
    }
    let mut known = Vec::new(alloc);
    known.push(rules_at(alloc, rules, tops.as_slice())?)?;
    for at in 0..LOOK {
        put_state(alloc, out, rules, &mut known, at)?;
    }
    Ok(())
}

/// The rules of these states.
fn rules_at<'a>(alloc: Global, rules: &'a [Rule], states: &[u32]) -> Result<Vec<&'a Rule>> {
    let mut found = Vec::new(alloc);
    for rule in rules {
        if states.contains(&rule.state) {
            found.push(rule)?;
        }
    }
    Ok(found)
}

/// The rules of this set, if there is one of this number. The sets that cells of it end in are added to the known ones.
fn put_state<'a>(
    alloc: Global,
    out: &mut String,
    rules: &'a [Rule],
    known: &mut Vec<Vec<&'a Rule>>,
    at: usize,
) -> Result<()> {
    let symbols = match known.get(at) {
        None => return Ok(()),
        Some(set) => symbols_of(alloc, set.as_slice())?,
    };
    for symbol in symbols.as_slice() {
        let set = known.get(at).context("no such state")?;
        let next = below(alloc, rules, set.as_slice(), symbol)?;
        match symbol.split_once('*') {
            None => write!(out, "s{at} = {symbol}\n")?,
            Some((front, back)) => {
                let number = number_of(alloc, rules, known, next)?;
                write!(out, "s{at} = {front}s{number}{back}\n")?;
            }
        }
    }
    Ok(())
}

/// The symbols of the set, each once, in the order of their texts.
fn symbols_of<'a>(alloc: Global, set: &[&'a Rule]) -> Result<Vec<&'a str>> {
    let mut symbols: Vec<&'a str> = Vec::new(alloc);
    for rule in set {
        if !symbols.as_slice().contains(&rule.symbol.as_str()) {
            symbols.push(rule.symbol.as_str())?;
        }
    }
    symbols.sort()?;
    Ok(symbols)
}

/// The rules of the states in which cells of this symbol end: none for a leaf.
fn below<'a>(
    alloc: Global,
    rules: &'a [Rule],
    set: &[&'a Rule],
    symbol: &str,
) -> Result<Vec<&'a Rule>> {
    let mut states = Vec::new(alloc);
    for rule in set {
        if rule.symbol.as_str() == symbol {
            if let Some(child) = rule.child {
                states.push(child)?;
            }
        }
    }
    rules_at(alloc, rules, states.as_slice())
}

/// The number of the known set with the same chains; a set of others becomes the last.
fn number_of<'a>(
    alloc: Global,
    rules: &'a [Rule],
    known: &mut Vec<Vec<&'a Rule>>,
    set: Vec<&'a Rule>,
) -> Result<usize> {
    for (number, other) in known.iter().enumerate() {
        if are_alike(alloc, rules, other.as_slice(), set.as_slice(), LOOK)? {
            return Ok(number);
        }
    }
    let number = known.len();
    if LOOK <= number {
        bail!("too many states");
    }
    known.push(set)?;
    Ok(number)
}

/// Whether the chains of at most so many cells that begin in one set are those that begin in the other.
fn are_alike<'a>(
    alloc: Global,
    rules: &'a [Rule],
    left: &[&'a Rule],
    right: &[&'a Rule],
    look: usize,
) -> Result<bool> {
    let symbols = symbols_of(alloc, left)?;
    let others = symbols_of(alloc, right)?;
    if symbols.as_slice() != others.as_slice() {
        return Ok(false);
    }
    if look == 0 {
        return Ok(true);
    }
    for symbol in symbols.as_slice() {
        let left = below(alloc, rules, left, symbol)?;
        let right = below(alloc, rules, right, symbol)?;
        if !are_alike(alloc, rules, left.as_slice(), right.as_slice(), look - 1)? {
            return Ok(false);
        }
    }
    Ok(true)
}
