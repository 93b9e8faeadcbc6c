// sound?: whether a forest is sound.

use anyhow::{Result, bail};
use fa_core::faces::Face;
use fa_core::forest::Forest;
use fa_sound::{Sound, have_no_boxes};
use row_forests::{face, forest_of};
use row_kit::said;
use std::alloc::Global;

pub fn judged(alloc: Global, text: &str) -> Result<String> {
    let forest = forest_of(alloc, text)?;
    plain_word(alloc, &forest)
}

fn plain_word(alloc: Global, forest: &Forest) -> Result<String> {
    if !have_no_boxes(forest.autos.as_slice()) {
        bail!("a box edge");
    }
    let face = face(alloc)?;
    word_on(alloc, forest, &face)
}

/// Whether the forest is sound over the face, as a word.
pub fn word_on(alloc: Global, forest: &Forest, face: &Face) -> Result<String> {
    match Sound::make(alloc, forest, face)? {
        Some(_) => said(alloc, "yes"),
        None => said(alloc, "no"),
    }
}
