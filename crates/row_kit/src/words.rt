// The words of heads and of answers.

use anyhow::{Context, Result};
use std::alloc::Global;

/// The word of the head at this place; 0 is its kind.
///
/// # Errors
///
/// A head that has fewer words.
pub fn word_at(head: &str, place: usize) -> Result<&str> {
    head.split(' ').nth(place).context("a word too few")
}

/// The number that is the word of the head at this place.
///
/// # Errors
///
/// A head that has fewer words, and a word that is no number.
pub fn number_at(head: &str, place: usize) -> Result<u32> {
    let word = word_at(head, place)?;
    Ok(word.parse::<u32>()?)
}

/// The answer that is this word.
///
/// # Errors
///
/// Want of memory.
pub fn said(alloc: Global, word: &str) -> Result<String> {
    Ok(String::from_str(alloc, word)?)
}

/// yes or no.
pub fn yes_or_no(is_so: bool) -> &'static str {
    if is_so { "yes" } else { "no" }
}
