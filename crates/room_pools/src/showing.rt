// What a pool holds, and what the forests that are kept in it are.
//
// - `keep | FOREST | ..`: the numbers of the components of each forest, and behind a bar how many automata there are.
// - `pool | FOREST | ..`: the automata in order; - where there is none.
// - `read | FOREST | ..`: the first forest, read when all are kept.

ghost use Rattle.std.specs.Prelude.{◌<◌, IsTrue};
ghost use Rattle.fore_base.specs.Lists.{Every};
ghost use Rattle.fa_pool.specs.Pools.{IsKeptIn};

use crate::keeping::keep_all;
use anyhow::{Context, Result, bail};
use fa_core::forest::Forest;
use fa_pool::{Kept, Pool};
use row_forests::{put_auto, put_forest};
use std::alloc::Global;

pub fn numbers(alloc: Global, texts: &[&str]) -> Result<String> {
    let mut pool = Pool::new(alloc);
    let all = keep_all(alloc, &mut pool, texts)?;
    numbers_text(alloc, all.as_slice(), pool.len())
}

fn numbers_text(alloc: Global, all: &[Kept], count: usize) -> Result<String> {
    let mut text = String::new(alloc);
    for kept in all {
        put_parts(&mut text, kept)?;
        text.push_str("; ")?;
    }
    write!(text, "{count}")?;
    Ok(text)
}

fn put_parts(text: &mut String, kept: &Kept) -> Result<()> {
    if kept.parts.is_empty() {
        text.push('-')?;
    }
    for (place, part) in kept.parts.as_slice().iter().enumerate() {
        if place > 0 {
            text.push(' ')?;
        }
        write!(text, "{part}")?;
    }
    Ok(())
}

pub fn automata(alloc: Global, texts: &[&str]) -> Result<String> {
    let mut pool = Pool::new(alloc);
    let _all = keep_all(alloc, &mut pool, texts)?;
    shown(alloc, &pool)
}

fn shown(alloc: Global, pool: &Pool) -> Result<String> {
    let mut text = String::new(alloc);
    if pool.is_empty() {
        text.push('-')?;
    }
    for number in 0..pool.len() {
        if number > 0 {
            text.push_str(" / ")?;
        }
        put_auto(alloc, &mut text, pool.auto(number))?;
    }
    Ok(text)
}

pub fn first(alloc: Global, texts: &[&str]) -> Result<String> {
    let mut pool = Pool::new(alloc);
    let all = keep_all(alloc, &mut pool, texts)?;
    first_of(alloc, &pool, all.as_slice())
}

fn first_of(alloc: Global, pool: &Pool, all: &[Kept]) -> Result<String> {
    let kept = all.first().context("no forest")?;
    let forest = read(alloc, pool, kept)?;
    text_of(alloc, &forest)
}

fn read(alloc: Global, pool: &Pool, kept: &Kept) -> Result<Forest> {
    if !is_kept_in(pool, kept) {
        bail!("no such number");
    }
    Ok(pool.forest(alloc, kept)?)
}

/// Whether the parts of each are numbers of automata.
pub fn are_kept_in(pool: &Pool, all: &[Kept]) -> bool
    ensures { IsTrue result → Every (IsKeptIn pool.now) all.now }
{
    for kept in all {
        if !is_kept_in(pool, kept) {
            return false;
        }
    }
    true
}

// Whether the parts are numbers of automata.
fn is_kept_in(pool: &Pool, kept: &Kept) -> bool
    ensures { IsTrue result → IsKeptIn pool.now kept.now }
{
    are_below(pool.len(), kept.parts.as_slice())
}

fn are_below(count: usize, numbers: &[usize]) -> bool
    ensures { IsTrue result → Every (λ n. n < count) numbers.now }
{
    for number in numbers {
        if *number >= count {
            return false;
        }
    }
    true
}

fn text_of(alloc: Global, forest: &Forest) -> Result<String> {
    let mut text = String::new(alloc);
    put_forest(alloc, &mut text, forest)?;
    Ok(text)
}
