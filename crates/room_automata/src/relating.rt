// Kinds of rows on simulations and inclusions.
//
// - `simulation JOBS | AUTOMATON`: the number of its states, and the pairs of its greatest downward simulation, of
//   which the second state simulates the first. It is computed by 1 or 64 jobs.
// - `upward | AUTOMATON`, `upward alone | AUTOMATON`: the same of its greatest upward simulation by that one, by 64
//   jobs and without a crew.
// - `included | AUTOMATON | AUTOMATON`: whether each tree of the first is one of the second.
// - `missing | AUTOMATON | AUTOMATON | ..`: for the tree that shows that the second has not all trees of the first,
//   which of the automata accept it, a for the first; none where the second has all.
// - `pairs | AUTOMATON | AUTOMATON`: what shows that the second has all trees of the first: a state of the first with a
//   set of states of the second, each; none where it has not all.

ghost use Rattle.std.specs.Prelude.{◌<◌, ◌≤◌};

use crate::given::{auto, other_auto};
use anyhow::Result;
use par_kit::crew::Crew;
use par_kit::gate::NoGate;
use row_automata::{put_number, put_numbers};
use row_kit::{said, yes_or_no};
use std::alloc::Global;
use std::thread::Threads;
use ta_core::accepting::accepts;
use ta_core::auto::Auto;
use ta_core::tree::Tree;
use ta_incl::{Inclusion, Pair, included, is_included};
use ta_sim::downward::downward;
use ta_sim::relation::Relation;
use ta_sim::upward::{upward, upward_alone};

pub fn simulation<R: Threads + Sync>(
    rt: &R,
    alloc: Global,
    auto: &Auto,
    jobs: usize,
) -> Result<String>
    requires { (1 ≤ jobs) × (jobs ≤ 64) }
{
    let crew = Crew {
        jobs,
        gate: &NoGate,
    };
    let relation = downward(rt, alloc, auto, &crew)?;
    simulation_text(alloc, &relation)
}

pub fn raised<R: Threads + Sync>(rt: &R, alloc: Global, auto: &Auto) -> Result<String> {
    let crew = Crew {
        jobs: 64,
        gate: &NoGate,
    };
    let down = downward(rt, alloc, auto, &crew)?;
    let relation = upward(rt, alloc, auto, &down, &crew)?;
    simulation_text(alloc, &relation)
}

pub fn raised_alone<R: Threads + Sync>(rt: &R, alloc: Global, auto: &Auto) -> Result<String> {
    let crew = Crew {
        jobs: 1,
        gate: &NoGate,
    };
    let down = downward(rt, alloc, auto, &crew)?;
    let relation = upward_alone(alloc, auto, &down)?;
    simulation_text(alloc, &relation)
}

fn simulation_text(alloc: Global, relation: &Relation) -> Result<String> {
    let mut text = String::new(alloc);
    put_number(&mut text, relation.size)?;
    for left in 0..relation.size {
        put_row(&mut text, relation, left)?;
    }
    Ok(text)
}

// Adds the pairs of this state.
fn put_row(text: &mut String, relation: &Relation, left: u32) -> Result<()>
    requires { left < relation.now.size }
{
    for right in 0..relation.size {
        if relation.holds(left, right) {
            text.push(' ')?;
            put_numbers(text, &[left, right])?;
        }
    }
    Ok(())
}

pub fn inclusion(alloc: Global, auto: &Auto, others: &[&str]) -> Result<String> {
    let other = other_auto(alloc, others)?;
    said(alloc, yes_or_no(is_included(alloc, auto, &other)?))
}

fn answered(alloc: Global, auto: &Auto, others: &[&str]) -> Result<Inclusion> {
    let other = other_auto(alloc, others)?;
    Ok(included(alloc, auto, &other)?)
}

pub fn missing(alloc: Global, auto: &Auto, others: &[&str]) -> Result<String> {
    match answered(alloc, auto, others)? {
        Inclusion::Yes { .. } => said(alloc, "none"),
        Inclusion::No { tree } => owners(alloc, &tree, auto, others),
    }
}

// The letters of the automata that accept the tree.
fn owners(alloc: Global, tree: &Tree, first: &Auto, others: &[&str]) -> Result<String> {
    let mut text = String::new(alloc);
    if accepts(alloc, first, tree)? {
        text.push('a')?;
    }
    for (letter, other) in ('b'..='z').zip(others) {
        if is_owner(alloc, other, tree)? {
            text.push(letter)?;
        }
    }
    Ok(text)
}

fn is_owner(alloc: Global, text: &str, tree: &Tree) -> Result<bool> {
    let auto = auto(alloc, text)?;
    Ok(accepts(alloc, &auto, tree)?)
}

pub fn pairs(alloc: Global, auto: &Auto, others: &[&str]) -> Result<String> {
    match answered(alloc, auto, others)? {
        Inclusion::Yes { pairs } => pairs_text(alloc, pairs.as_slice()),
        Inclusion::No { .. } => said(alloc, "none"),
    }
}

fn pairs_text(alloc: Global, pairs: &[Pair]) -> Result<String> {
    let mut text = String::new(alloc);
    for pair in pairs {
        put_pair(&mut text, pair)?;
    }
    Ok(text)
}

fn put_pair(text: &mut String, pair: &Pair) -> Result<()> {
    if !text.is_empty() {
        text.push(' ')?;
    }
    put_number(text, pair.state)?;
    text.push('{')?;
    put_numbers(text, pair.set.as_slice())?;
    text.push('}')?;
    Ok(())
}
