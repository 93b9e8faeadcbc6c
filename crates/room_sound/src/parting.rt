// parts: the forests into which a forest is cut by the signatures of its components.

use anyhow::{Result, bail};
use fa_core::faces::Face;
use fa_core::forest::Forest;
use fa_signatures::{is_filled, split_signatures};
use fa_sound::Sound;
use fore_base::list::List;
use row_forests::{face, forest_of, letters};
use std::alloc::Global;

pub fn part_letters(alloc: Global, text: &str, wanted: &[&str]) -> Result<String> {
    let face = face(alloc)?;
    letters_over(alloc, text, &face, wanted)
}

/// So over this face.
pub fn letters_over(alloc: Global, text: &str, face: &Face, wanted: &[&str]) -> Result<String> {
    let made = parts_of(alloc, text, face)?;
    letters(alloc, made.as_slice(), wanted)
}

fn parts_of(alloc: Global, text: &str, face: &Face) -> Result<List<Sound>> {
    let forest = forest_of(alloc, text)?;
    parts_over(alloc, &forest, face)
}

fn parts_over(alloc: Global, forest: &Forest, face: &Face) -> Result<List<Sound>> {
    if !is_filled(alloc, forest, face)? {
        bail!("not filled");
    }
    Ok(split_signatures(alloc, forest, face)?)
}
