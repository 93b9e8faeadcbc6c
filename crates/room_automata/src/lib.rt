//! Rows of tree automata: languages, automata made of others, simulations and inclusions.
//!
//! The first text of most rows is an automaton; automata and trees stand in a row as `row_automata` reads them, and
//! large ones have a name and a size (`large`).
#![tactic(auto)]

mod agreeing;
mod given;
mod languages;
mod large;
mod making;
mod relating;

use crate::agreeing::agreement;
use crate::given::auto;
use crate::languages::{accepted, sameness, smallest, top};
use crate::making::{answer_by_number, joined, made_of_parts, reduced, shown, size};
use crate::relating::{inclusion, missing, pairs, raised, raised_alone, simulation};
use anyhow::{Context, Result};
use fore_base::list::Copies;
use row_kit::{said, yes_or_no};
use std::alloc::Global;
use std::thread::Threads;
use ta_core::auto::Auto;
use ta_core::inhabited::is_empty;
use ta_core::trimming::trim;

/// The answer to a row of this head and these texts.
pub fn answer<R: Threads + Sync>(
    rt: &R,
    alloc: Global,
    head: &str,
    texts: &[&str],
) -> Result<String> {
    let (first, others) = texts.split_first().context("no text")?;
    match head {
        "same" => sameness(alloc, first, others),
        "top" => top(alloc, first),
        "automaton" => made_of_parts(alloc, first),
        "agreement 300" => agreement(alloc, first, others),
        _ => answer_on_auto(rt, alloc, head, first, others),
    }
}

fn answer_on_auto<R: Threads + Sync>(
    rt: &R,
    alloc: Global,
    head: &str,
    first: &str,
    others: &[&str],
) -> Result<String> {
    let auto = auto(alloc, first)?;
    answer_on(rt, alloc, head, &auto, others)
}

// The kinds on an automaton.
fn answer_on<R: Threads + Sync>(
    rt: &R,
    alloc: Global,
    head: &str,
    auto: &Auto,
    others: &[&str],
) -> Result<String> {
    match head {
        "reduce" => reduced(rt, alloc, auto),
        "simulation 1" => simulation(rt, alloc, auto, 1),
        "simulation 64" => simulation(rt, alloc, auto, 64),
        "upward" => raised(rt, alloc, auto),
        "upward alone" => raised_alone(rt, alloc, auto),
        _ => answer_alone(alloc, head, auto, others),
    }
}

// The kinds that want no threads.
fn answer_alone(alloc: Global, head: &str, auto: &Auto, others: &[&str]) -> Result<String> {
    match head {
        "accepts" => accepted(alloc, auto, others),
        "empty" => said(alloc, yes_or_no(is_empty(alloc, auto)?)),
        "smallest" => smallest(alloc, auto),
        "copy" => shown(alloc, auto.copy(alloc)?),
        "trim" => shown(alloc, trim(alloc, auto)?),
        "size" => size(alloc, auto),
        "union" => joined(alloc, auto, others),
        "included" => inclusion(alloc, auto, others),
        "missing" => missing(alloc, auto, others),
        "pairs" => pairs(alloc, auto, others),
        _ => answer_by_number(alloc, head, auto, others),
    }
}
