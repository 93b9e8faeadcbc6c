// Texts of C, as they stand in rows.
//
// A text stands in a row on one line. A backslash and a letter stand for what a line cannot have: n, r and t for a
// newline, a carriage return and a tab, b for a backslash, p for a bar, x and two digits for the byte of that
// number in base sixteen, and e for nothing, as in the empty text. `\[3 a;\]` stands for `a;` three times; in it, v
// stands for the letter v as often as there have been rounds, this one with them.

use anyhow::{Context, Result, bail};
use fore_base::memory::Mem;
use fore_base::text::Text;
use std::alloc::Global;
use std::str;

/// The text that stands in a row.
///
/// # Errors
///
/// An escape that is none, a piece without its count or its end, and want of memory.
pub fn read_text(alloc: Global, row: &str) -> Result<Text> {
    let mut text = Text::new(alloc);
    let mut parts = row.split("\\[");
    if let Some(first) = parts.next() {
        put_plain(&mut text, first, 0)?;
    }
    for part in parts {
        put_repeated(&mut text, part)?;
    }
    Ok(text)
}

/// Puts a piece as often as it says, and what stands behind it.
fn put_repeated(text: &mut Text, part: &str) -> Result<()> {
    let (repeated, rest) = part.split_once("\\]").context("a piece without an end")?;
    let (count, piece) = repeated.split_once(' ').context("a piece without a count")?;
    for round in 0..count.parse::<usize>()? {
        put_plain(text, piece, round.saturating_add(1))?;
    }
    put_plain(text, rest, 0)
}

/// Puts what is not repeated itself, in this round.
fn put_plain(text: &mut Text, plain: &str, round: usize) -> Result<()> {
    let mut parts = plain.split('\\');
    if let Some(first) = parts.next() {
        text.put(first.as_bytes())?;
    }
    for part in parts {
        put_escaped(text, part, round)?;
    }
    Ok(())
}

/// Puts what stands behind a backslash.
fn put_escaped(text: &mut Text, part: &str, round: usize) -> Result<()> {
    let (letter, rest) = part.as_bytes().split_first().context("a backslash alone")?;
    match *letter {
        b'x' => return put_numbered(text, rest),
        b'v' => put_names(text, round)?,
        b'e' => {}
        other => text.put(&[byte_of(other)?])?,
    }
    text.put(rest)?;
    Ok(())
}

/// The byte of a letter.
fn byte_of(letter: u8) -> Result<u8> {
    match letter {
        b'n' => Ok(b'\n'),
        b'r' => Ok(b'\r'),
        b't' => Ok(b'\t'),
        b'b' => Ok(b'\\'),
        b'p' => Ok(b'|'),
        _ => bail!("no such letter behind a backslash"),
    }
}

/// Puts the letter v some times.
fn put_names(text: &mut Text, times: usize) -> Result<()> {
    for _ in 0..times {
        text.put(b"v")?;
    }
    Ok(())
}

/// Puts the byte of the number that comes first, and what stands behind it.
fn put_numbered(text: &mut Text, part: &[u8]) -> Result<()> {
    let (high, rest) = part.split_first().context("a number without digits")?;
    let (low, rest) = rest.split_first().context("a number of one digit")?;
    let high = digit(*high).context("no digit")?;
    let low = digit(*low).context("no digit")?;
    text.put(&[high << 4 | low])?;
    text.put(rest)?;
    Ok(())
}

fn digit(letter: u8) -> Option<u8> {
    match letter {
        b'0'..=b'9' => Some(letter - b'0'),
        b'a'..=b'f' => Some(letter - b'a' + 10),
        _ => None,
    }
}

/// Puts what stands between two parts, where a part stands before.
///
/// # Errors
///
/// Want of memory.
pub fn put_between(out: &mut Text, number: usize, word: &[u8]) -> Mem<()> {
    if number > 0 {
        out.put(word)?;
    }
    Ok(())
}

/// An answer as it is printed.
///
/// # Errors
///
/// Bytes that are no text, and want of memory.
pub fn shown(alloc: Global, out: &Text) -> Result<String> {
    let text = str::from_utf8(out.as_slice())
        .ok()
        .context("bytes that are no text")?;
    Ok(String::from_str(alloc, text)?)
}
