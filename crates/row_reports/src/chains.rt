// The rules of a component, as those of chains.
//
// The trees of a component are chains where each cell has one slot at most below which cells stand. Each other slot
// ends in one leaf then, which is written in its place: what is left of a rule is a symbol with a gap, and the state of
// the child in it. In a cell with one slot the gap is there, whatever stands below.

use anyhow::{Context, Result, bail};
use std::alloc::Global;

/// How many states an automaton of a report has at most.
const STATES: u32 = 8;

/// A rule: the term with a gap for its child, a star, or the whole term where it has none.
#[derive(Drop)]
pub struct Rule {
    pub state: u32,
    pub symbol: String,
    pub child: Option<u32>,
}

/// A rule as it is written: its state, its term, and the slots of a cell.
#[derive(Drop)]
struct Written<'a> {
    state: u32,
    term: &'a str,
    slots: Vec<Slot<'a>>,
}

/// A slot: its text as far as the state in which it ends, if it does.
#[derive(Clone, Copy)]
struct Slot<'a> {
    text: &'a str,
    child: Option<u32>,
}

/// The rules in these lines of a report.
///
/// # Errors
///
/// A cell with two slots below which cells stand, a slot with several leaves, a text that is no rule, and want of
/// memory.
pub fn rules_of(alloc: Global, lines: &str) -> Result<Vec<Rule>> {
    let written = written_of(alloc, lines)?;
    let mut rules = Vec::new(alloc);
    for line in written.as_slice() {
        rules.push(rule_of(alloc, written.as_slice(), line)?)?;
    }
    Ok(rules)
}

/// The number of a state.
pub fn state_of(word: &str) -> Result<u32> {
    let digits = word.strip_prefix("s").context("no state")?;
    let state = digits.parse::<u32>()?;
    if STATES <= state {
        bail!("a state above the greatest");
    }
    Ok(state)
}

fn written_of<'a>(alloc: Global, lines: &'a str) -> Result<Vec<Written<'a>>> {
    let mut written = Vec::new(alloc);
    for line in lines.lines() {
        if let Some((state, term)) = line.split_once(" = ") {
            written.push(Written {
                state: state_of(state)?,
                term,
                slots: slots_of(alloc, term)?,
            })?;
        }
    }
    Ok(written)
}

/// The slots of a cell; none of a leaf.
fn slots_of<'a>(alloc: Global, term: &'a str) -> Result<Vec<Slot<'a>>> {
    let mut slots = Vec::new(alloc);
    if let Some((_, rest)) = term.split_once('(') {
        let inside = rest.strip_suffix(")").context("a cell without an end")?;
        for slot in inside.split(',') {
            slots.push(slot_of(slot)?)?;
        }
    }
    Ok(slots)
}

fn slot_of<'a>(slot: &'a str) -> Result<Slot<'a>> {
    match slot.split_once('=') {
        None => Ok(Slot {
            text: slot,
            child: None,
        }),
        Some((text, state)) => Ok(Slot {
            text,
            child: Some(state_of(state)?),
        }),
    }
}

fn rule_of(alloc: Global, all: &[Written<'_>], written: &Written<'_>) -> Result<Rule> {
    let Some((head, _)) = written.term.split_once('(') else {
        return Ok(Rule {
            state: written.state,
            symbol: String::from_str(alloc, written.term)?,
            child: None,
        });
    };
    let gap = gap_of(all, written)?;
    let mut symbol = String::from_str(alloc, head)?;
    let mut child = None;
    let mut mark = "(";
    for (place, slot) in written.slots.as_slice().iter().enumerate() {
        symbol.push_str(mark)?;
        mark = ",";
        if gap == Some(place) {
            child = slot.child;
        }
        put_slot(&mut symbol, all, slot, gap == Some(place))?;
    }
    symbol.push_str(")")?;
    Ok(Rule {
        state: written.state,
        symbol,
        child,
    })
}

fn put_slot(symbol: &mut String, all: &[Written<'_>], slot: &Slot<'_>, is_gap: bool) -> Result<()> {
    symbol.push_str(slot.text)?;
    if let Some(child) = slot.child {
        symbol.push_str("=")?;
        symbol.push_str(if is_gap { "*" } else { leaf_of(all, child)? })?;
    }
    Ok(())
}

/// The place of the slot below which cells stand, in this cell or in one of the same slots; of one slot it is this one.
fn gap_of(all: &[Written<'_>], written: &Written<'_>) -> Result<Option<usize>> {
    if written.slots.len() == 1 {
        return Ok(Some(0));
    }
    let mut gap = None;
    for place in 0..written.slots.len() {
        if has_cells(all, written, place) {
            if gap.is_some() {
                bail!("a cell with two slots below which cells stand");
            }
            gap = Some(place);
        }
    }
    Ok(gap)
}

/// Whether a cell stands at this place of this cell, or of one of the same slots.
fn has_cells(all: &[Written<'_>], written: &Written<'_>, place: usize) -> bool {
    for other in all {
        if has_slots_of(other, written) && ends_in_cell(all, other, place) {
            return true;
        }
    }
    false
}

/// Whether both are cells of one struct, with the same data and the same slots.
fn has_slots_of(left: &Written<'_>, right: &Written<'_>) -> bool {
    if left.slots.len() != right.slots.len() || head_of(left) != head_of(right) {
        return false;
    }
    for (one, other) in left.slots.as_slice().iter().zip(right.slots.as_slice()) {
        if one.text != other.text {
            return false;
        }
    }
    true
}

/// The term as far as its slots.
fn head_of<'a>(written: &Written<'a>) -> &'a str {
    written.term.split('(').next().unwrap_or("")
}

/// Whether a cell stands at this place of the rule.
fn ends_in_cell(all: &[Written<'_>], written: &Written<'_>, place: usize) -> bool {
    match written.slots.get(place) {
        None => false,
        Some(slot) => match slot.child {
            None => false,
            Some(child) => is_cell(all, child),
        },
    }
}

/// Whether the state has a cell.
fn is_cell(all: &[Written<'_>], state: u32) -> bool {
    for rule in all {
        if rule.state == state && rule.term.contains("(") {
            return true;
        }
    }
    false
}

/// The only leaf of the state.
fn leaf_of<'a>(all: &[Written<'a>], state: u32) -> Result<&'a str> {
    let mut leaf = None;
    for rule in all {
        if rule.state == state {
            if leaf.is_some() {
                bail!("a slot with two leaves");
            }
            leaf = Some(rule.term);
        }
    }
    leaf.context("a slot without a leaf")
}
