// A kind of rows on many automata.
//
// - `agreement 300 | SEED | TREE | ..`: of 300 pairs of small automata, made by a linear congruence from the seed
//   on, those of which inclusion both ways agrees with the trees: on yes each of the trees that the first accepts, the
//   second accepts; on no the first accepts the tree that is given, and the second does not.

ghost use Rattle.std.specs.Prelude.{◌<◌, ◌≤◌};

use crate::languages::does_accept;
use anyhow::Result;
use row_automata::{auto_of, put_number};
use std::alloc::Global;
use ta_core::accepting::accepts;
use ta_core::auto::Auto;
use ta_core::tree::Tree;
use ta_incl::{Inclusion, included, is_included};

const PAIRS: u32 = 300;

// The next number of the congruence, from its upper half and below the limit.
fn draw(seed: &mut u32, limit: u32) -> u32
    requires { 0 < limit }
    ensures { result < limit }
{
    *seed = seed.wrapping_mul(1_103_515_245).wrapping_add(12_345);
    (*seed >> 16) % limit
}

// How many of the pairs agree.
pub fn agreement(alloc: Global, first: &str, trees: &[&str]) -> Result<String> {
    let mut seed = first.parse::<u32>()?;
    let mut agreeing: u32 = 0;
    for _ in 0..PAIRS {
        if does_agree(alloc, &mut seed, trees)? {
            agreeing = agreeing.saturating_add(1);
        }
    }
    Ok(format!(in alloc; "{agreeing}")?)
}

// Whether the next pair agrees, both ways.
fn does_agree(alloc: Global, seed: &mut u32, trees: &[&str]) -> Result<bool> {
    let left = small(alloc, seed)?;
    let right = small(alloc, seed)?;
    agree_both_ways(alloc, &left, &right, trees)
}

fn agree_both_ways(alloc: Global, left: &Auto, right: &Auto, trees: &[&str]) -> Result<bool> {
    Ok(agrees(alloc, left, right, trees)? && agrees(alloc, right, left, trees)?)
}

fn agrees(alloc: Global, left: &Auto, right: &Auto, trees: &[&str]) -> Result<bool> {
    let within = is_included(alloc, left, right)?;
    match included(alloc, left, right)? {
        Inclusion::Yes { .. } => Ok(within && has_each(alloc, left, right, trees)?),
        Inclusion::No { tree } => Ok(!within && is_missing(alloc, left, right, &tree)?),
    }
}

// Whether the second automaton accepts each of the trees that the first accepts.
fn has_each(alloc: Global, left: &Auto, right: &Auto, trees: &[&str]) -> Result<bool> {
    for tree in trees {
        if does_accept(alloc, left, tree)? && !does_accept(alloc, right, tree)? {
            return Ok(false);
        }
    }
    Ok(true)
}

fn is_missing(alloc: Global, left: &Auto, right: &Auto, tree: &Tree) -> Result<bool> {
    Ok(accepts(alloc, left, tree)? && !accepts(alloc, right, tree)?)
}

// An automaton of one to three states, with one root state, and one to three rules of each.
fn small(alloc: Global, seed: &mut u32) -> Result<Auto> {
    let mut text = String::new(alloc);
    put_small(&mut text, seed)?;
    auto_of(alloc, text.as_str())
}

fn put_small(text: &mut String, seed: &mut u32) -> Result<()> {
    let states = draw(seed, 3) + 1;
    put_number(text, states)?;
    put_number(text, draw(seed, states))?;
    for state in 0..states {
        for _ in 0..draw(seed, 3) + 1 {
            put_rule(text, seed, state, states)?;
        }
    }
    Ok(())
}

fn put_rule(text: &mut String, seed: &mut u32, state: u32, states: u32) -> Result<()>
    requires { 0 < states }
{
    text.push(' ')?;
    put_number(text, state)?;
    match draw(seed, 4) {
        0 => text.push('a')?,
        1 => text.push('u')?,
        2 => put_children(text, seed, 'n', 1, states)?,
        _ => put_children(text, seed, 'f', 2, states)?,
    }
    Ok(())
}

fn put_children(
    text: &mut String,
    seed: &mut u32,
    symbol: char,
    count: u32,
    states: u32,
) -> Result<()>
    requires { 0 < states }
{
    text.push(symbol)?;
    for _ in 0..count {
        put_number(text, draw(seed, states))?;
    }
    Ok(())
}
