// How answers are printed, and how the parts of a text are read.

use anyhow::Result;
use fore_base::memory::Mem;
use fore_base::text::Text;
use std::alloc::Global;

/// Puts bytes between quotes.
pub fn put_quoted(out: &mut Text, bytes: &[u8]) -> Mem<()> {
    out.put(b"\"")?;
    out.put(bytes)?;
    out.put(b"\"")
}

/// Puts a number behind a word.
pub fn put_counted(out: &mut Text, word: &[u8], count: u64) -> Mem<()> {
    out.put(word)?;
    out.put_number(count)
}

/// Puts one word or the other.
pub fn put_choice(out: &mut Text, first: bool, yes: &[u8], no: &[u8]) -> Mem<()> {
    if first { out.put(yes) } else { out.put(no) }
}

/// The numbers of a text with a comma and a space between two; none of an empty text.
pub fn read_numbers(alloc: Global, text: &str) -> Result<Vec<u32>> {
    let mut all = Vec::new(alloc);
    if text.is_empty() {
        return Ok(all);
    }
    for word in text.split(", ") {
        all.push(word.parse::<u32>()?)?;
    }
    Ok(all)
}
