// Programs from the lines of their main, and bytes as text.

use anyhow::{Context, Result};
use fore_base::text::Text;
use row_texts::read_text;
use std::alloc::Global;

/// What stands before and behind the lines of `main_of`; the first of these is line 3.
const HEAD: &str = "struct node { struct node *next; struct node *other; };\nint main(void) {\n";

const TAIL: &str = "return 0;\n}\n";

/// A program with these lines in its main.
pub fn main_of(alloc: Global, lines: &str) -> Result<Text> {
    let lines = read_text(alloc, lines)?;
    let mut text = Text::new(alloc);
    text.put(HEAD.as_bytes())?;
    text.put(lines.as_slice())?;
    text.put(TAIL.as_bytes())?;
    Ok(text)
}

/// The text of the bytes.
pub fn text_of<'a>(bytes: &'a [u8]) -> Result<&'a str> {
    str::from_utf8(bytes).ok().context("bytes that are no text")
}
