// The answers to a sample that is changed at each of its tokens.
//
// A sample is words of C with a blank between. What stands before and after it is said by its frame. An answer is
// `ok`, or the number of the hopeless token among those behind the frame's first words.
ghost use Rattle.std.specs.Prelude.{◌≤◌, length};

use crate::parsing::put_parsed;
use anyhow::{Context, Result, bail};
use fore_base::limits::FILE_BYTES;
use fore_base::memory::Mem;
use fore_base::text::Text;
use row_texts::put_between;
use std::alloc::Global;

/// How a sample is changed at a token.
#[derive(Clone, Copy, PartialEq, Eq)]
pub enum Change {
    /// The token is left out.
    Missing,
    /// It stands twice.
    Doubled,
    /// It has changed places with the next one.
    Swapped,
    /// The text ends before it.
    Ended,
}

/// What stands before and after a sample.
#[derive(Clone, Copy)]
struct Frame {
    before: &'static str,
    after: &'static str,
}

/// The frame of a name.
fn frame_of(name: &str) -> Result<Frame> {
    let (before, after) = match name {
        "file" => ("", ""),
        "struct" => ("struct x {", "} ;"),
        "main" => ("int main ( void ) {", "}"),
        _ => bail!("no such frame"),
    };
    Ok(Frame { before, after })
}

/// missing, doubled, swapped, ended: the answers at each token. The last one has none to change places with, and
/// the text does not end before the first.
pub fn put_answers(
    alloc: Global,
    out: &mut Text,
    name: &str,
    sample: &str,
    change: Change,
) -> Result<()> {
    let frame = frame_of(name)?;
    let mut words = Vec::new(alloc);
    put_words(&mut words, sample)?;
    for place in 0..words.len() {
        if is_changed(change, place, words.len()) {
            put_between(out, out.len(), b" ")?;
            put_changed(alloc, out, &frame, words.as_slice(), change, place)?;
        }
    }
    Ok(())
}

/// Whether there is a change at a place of so many.
fn is_changed(change: Change, place: usize, count: usize) -> bool {
    match change {
        Change::Swapped => place.saturating_add(1) < count,
        Change::Ended => place > 0,
        _ => true,
    }
}

/// Puts the answer to a sample that is changed at a place.
fn put_changed(
    alloc: Global,
    out: &mut Text,
    frame: &Frame,
    sample: &[&str],
    change: Change,
    place: usize,
) -> Result<()> {
    let mut words = Vec::new(alloc);
    put_words(&mut words, frame.before)?;
    let before = words.len();
    put_sample(&mut words, sample, change, place)?;
    if change != Change::Ended {
        put_words(&mut words, frame.after)?;
    }
    put_answer(alloc, out, words.as_slice(), before)
}

/// Puts the words of a text behind others.
fn put_words<'t>(all: &mut Vec<&'t str>, text: &'t str) -> Mem<()> {
    for word in text.split_whitespace() {
        all.push(word)?;
    }
    Ok(())
}

/// Puts a sample that is changed at a place.
fn put_sample<'t>(
    all: &mut Vec<&'t str>,
    sample: &[&'t str],
    change: Change,
    place: usize,
) -> Mem<()> {
    for (here, word) in sample.iter().enumerate() {
        if here == place {
            put_place(all, sample, change, place)?;
        } else {
            let follows = change == Change::Swapped && here == place.saturating_add(1);
            let cut = change == Change::Ended && here > place;
            if !follows && !cut {
                all.push(*word)?;
            }
        }
    }
    Ok(())
}

/// Puts what stands in the place of the token at which a sample is changed.
fn put_place<'t>(
    all: &mut Vec<&'t str>,
    sample: &[&'t str],
    change: Change,
    place: usize,
) -> Mem<()> {
    match change {
        Change::Missing | Change::Ended => Ok(()),
        Change::Doubled => {
            put_word(all, sample, place)?;
            put_word(all, sample, place)
        }
        Change::Swapped => {
            put_word(all, sample, place.saturating_add(1))?;
            put_word(all, sample, place)
        }
    }
}

/// Puts a sample's word.
fn put_word<'t>(all: &mut Vec<&'t str>, sample: &[&'t str], place: usize) -> Mem<()> {
    if let Some(word) = sample.get(place) {
        all.push(*word)?;
    }
    Ok(())
}

/// Puts the answer to words: the number of the hopeless one among those after the first `before`.
fn put_answer(alloc: Global, out: &mut Text, words: &[&str], before: usize) -> Result<()> {
    let (text, starts) = joined(alloc, words)?;
    let mut got = Text::new(alloc);
    if text.len() > FILE_BYTES {
        bail!("too long");
    }
    put_parsed(alloc, &mut got, text.as_slice())?;
    if got.as_slice().starts_with(b"ok") {
        out.put(b"ok")?;
        return Ok(());
    }
    let number = number_of(alloc, starts.as_slice(), got.as_slice())?.context("no token")?;
    out.put_number(number.saturating_sub(before) as u64)?;
    Ok(())
}

/// The text of words with blanks between, and where each of them and the end is.
fn joined(alloc: Global, words: &[&str]) -> Mem<(Text, Vec<usize>)> {
    let mut text = Text::new(alloc);
    let mut starts = Vec::new(alloc);
    for (number, word) in words.iter().enumerate() {
        put_between(&mut text, number, b" ")?;
        starts.push(text.len())?;
        text.put(word.as_bytes())?;
    }
    starts.push(text.len())?;
    Ok((text, starts))
}

/// The number of the place at which the answer says the hopeless token to be.
fn number_of(alloc: Global, starts: &[usize], got: &[u8]) -> Mem<Option<usize>> {
    for (number, start) in starts.iter().enumerate() {
        let mut answer = Text::new(alloc);
        answer.put(b"S ")?;
        answer.put_number(*start as u64)?;
        if answer.as_slice() == got {
            return Ok(Some(number));
        }
    }
    Ok(None)
}
