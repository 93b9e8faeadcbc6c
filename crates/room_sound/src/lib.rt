//! Rows of sound forests: which forests are sound, with box edges and without, their signatures, members of them, what
//! they are cut into by signature, what a box edge is unfolded into, and what a field of a root is opened into.
#![tactic(auto)]

mod boxed;
mod cutting;
mod files;
mod judging;
mod opening;
mod parting;
mod sampling;
mod signing;
mod stores;

use anyhow::{Context, Result};
use std::alloc::Global;

/// The answer to a row of this head and these texts.
pub fn answer(alloc: Global, head: &str, texts: &[&str]) -> Result<String> {
    let (text, others) = texts.split_first().context("no text")?;
    match head {
        "sound?" => judging::judged(alloc, text),
        "signatures" => signing::signatures(alloc, text),
        "copied" => signing::copied(alloc, text),
        "sample" => sampling::sampled(alloc, text),
        "cut" => cutting::cut_letters(alloc, text, others),
        "parts" => parting::part_letters(alloc, text, others),
        _ => boxed::boxed_answer(alloc, head, text, others),
    }
}
