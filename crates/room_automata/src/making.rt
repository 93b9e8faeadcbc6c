// Kinds of rows on automata that are made of others, or of their parts.
//
// - `automaton | AUTOMATON`: it itself; none where its parts make none.
// - `copy`, `trim`, `reduce` `| AUTOMATON`: the copy, the trimmed and the reduced automaton.
// - `size | AUTOMATON`: how many states and rules it has, and its root states.
// - `shift N | AUTOMATON`: with N added to each state. `union | AUTOMATON | AUTOMATON`: both side by side.
// - `renumber N | AUTOMATON | NUMBERS`: with the number in its place, one of N, for each state.
// - `room N | AUTOMATON`: its number of states and N more; none where 32 bits do not hold it.

ghost use Rattle.std.specs.Prelude.{◌↔◌, ◌<◌, IsTrue};
ghost use Rattle.fore_base.specs.Lists.{Every};

use crate::given::other_auto;
use anyhow::{Context, Result, bail};
use par_kit::crew::Crew;
use par_kit::gate::NoGate;
use row_automata::{numbers, parts_of, text_of_auto};
use row_kit::said;
use std::alloc::Global;
use std::thread::Threads;
use ta_core::auto::Auto;
use ta_core::joining::{rename, room, union};
use ta_core::renumbering::renumber;
use ta_reduce::reducing::reduce;

// The answer to a row whose kind has a number behind it.
pub fn answer_by_number(alloc: Global, head: &str, auto: &Auto, others: &[&str]) -> Result<String> {
    let (kind, number) = head.split_once(' ').context("no such kind")?;
    let number = number.parse::<u32>()?;
    match kind {
        "shift" => shifted(alloc, auto, number),
        "renumber" => renumbered(alloc, auto, number, others),
        "room" => room_for(alloc, auto, number),
        _ => bail!("no such kind"),
    }
}

// The text of an automaton that was made.
pub fn shown(alloc: Global, made: Auto) -> Result<String> {
    text_of_auto(alloc, &made)
}

pub fn made_of_parts(alloc: Global, first: &str) -> Result<String> {
    match parts_of(alloc, first)? {
        Some(auto) => shown(alloc, auto),
        None => said(alloc, "none"),
    }
}

pub fn reduced<R: Threads + Sync>(rt: &R, alloc: Global, auto: &Auto) -> Result<String> {
    let crew = Crew {
        jobs: 1,
        gate: &NoGate,
    };
    shown(alloc, reduce(rt, alloc, auto, &crew)?)
}

pub fn size(alloc: Global, auto: &Auto) -> Result<String> {
    let rules = auto.rules.len();
    let mut text = format!(in alloc; "states {}, rules {rules}, roots", auto.states)?;
    for root in auto.roots.as_slice() {
        write!(text, " {root}")?;
    }
    Ok(text)
}

pub fn joined(alloc: Global, auto: &Auto, others: &[&str]) -> Result<String> {
    let other = other_auto(alloc, others)?;
    let _states = room(auto, other.states)?;
    shown(alloc, union(alloc, auto, &other)?)
}

fn shifted(alloc: Global, auto: &Auto, by: u32) -> Result<String> {
    let _states = room(auto, by)?;
    shown(alloc, rename(alloc, auto, by)?)
}

fn renumbered(alloc: Global, auto: &Auto, states: u32, others: &[&str]) -> Result<String> {
    let table = others.first().context("no numbers")?;
    let numbers = numbers(alloc, table.as_bytes())?;
    with_numbers(alloc, auto, numbers.as_slice(), states)
}

fn with_numbers(alloc: Global, auto: &Auto, numbers: &[u32], states: u32) -> Result<String> {
    if numbers.len() != auto.states as usize || !are_below(numbers, states) {
        bail!("the numbers do not fit");
    }
    shown(alloc, renumber(alloc, auto, numbers, states)?)
}

fn are_below(numbers: &[u32], limit: u32) -> bool
    ensures { IsTrue result ↔ Every (λ n. n < limit) numbers.now }
{
    for number in numbers {
        if *number >= limit {
            return false;
        }
    }
    true
}

fn room_for(alloc: Global, auto: &Auto, more: u32) -> Result<String> {
    match room(auto, more) {
        Ok(states) => Ok(format!(in alloc; "{states}")?),
        Err(_) => said(alloc, "none"),
    }
}
