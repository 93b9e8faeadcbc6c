// What a step gives, by the letters of the wanted forests: a for the first of them, ? for none.

use anyhow::Result;
use row_forests::{letter, letters};
use std::alloc::Global;
use sym_step::posts::{Bad, Post};

// The letters of the forests behind the edge, and then each fault with the letter of the forest at which it is met,
// in the order of the letters: that of the faults says nothing.
pub fn told(alloc: Global, made: &Post, wanted: &[&str]) -> Result<String> {
    let mut text = letters(alloc, made.next.as_slice(), wanted)?;
    put_all_faults(alloc, &mut text, made.faults.as_slice(), wanted)?;
    Ok(text)
}

fn put_all_faults(alloc: Global, text: &mut String, faults: &[Bad], wanted: &[&str]) -> Result<()> {
    let places = places(alloc, faults, wanted)?;
    for letter in "abcdefghijklmnopqrstuvwxyz?".chars() {
        put_faults(text, faults, places.as_str(), letter)?;
    }
    Ok(())
}

// For each fault the letter of the forest at which it is met.
fn places(alloc: Global, faults: &[Bad], wanted: &[&str]) -> Result<String> {
    let mut text = String::new(alloc);
    for bad in faults {
        text.push(letter(alloc, bad.at.forest(), wanted)?)?;
    }
    Ok(text)
}

// Adds the faults at this letter.
fn put_faults(text: &mut String, faults: &[Bad], places: &str, letter: char) -> Result<()> {
    for (bad, place) in faults.iter().zip(places.chars()) {
        if place == letter {
            write!(text, " {:?}:{letter}", bad.fault)?;
        }
    }
    Ok(())
}
