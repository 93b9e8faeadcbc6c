//! Rows of the syntax of C: tokens, refused tokens and trees.
#![tactic(auto)]

ghost use Rattle.std.specs.Prelude.{◌≤◌, length};

mod lexing;
mod parsing;
mod positions;
mod trees;

use crate::lexing::{put_count, put_places, put_refused, put_tokens};
use crate::parsing::{put_over, put_parsed, put_tree};
use crate::positions::{Change, put_answers};
use anyhow::{Context, Result, bail};
use fore_base::limits::FILE_BYTES;
use fore_base::memory::Mem;
use fore_base::text::Text;
use row_texts::{read_text, shown};
use std::alloc::Global;

/// The answer to a row of this head and these texts.
pub fn answer(alloc: Global, head: &str, texts: &[&str]) -> Result<String> {
    let text = texts.first().context("no text")?;
    let mut out = Text::new(alloc);
    match head.split_once(' ') {
        Some((kind, words)) => put_changed(alloc, &mut out, kind, words, text)?,
        None => put_plain(alloc, &mut out, head, text)?,
    }
    shown(alloc, &out)
}

/// Puts the answers to the changed texts of a row.
fn put_changed(alloc: Global, out: &mut Text, kind: &str, words: &str, row: &str) -> Result<()> {
    match kind {
        "missing" => put_answers(alloc, out, words, row, Change::Missing),
        "doubled" => put_answers(alloc, out, words, row, Change::Doubled),
        "swapped" => put_answers(alloc, out, words, row, Change::Swapped),
        "ended" => put_answers(alloc, out, words, row, Change::Ended),
        _ => bail!("no such kind"),
    }
}

/// Puts the answer to the text of a row.
fn put_plain(alloc: Global, out: &mut Text, kind: &str, row: &str) -> Result<()> {
    let text = read_text(alloc, row)?;
    if text.len() > FILE_BYTES {
        bail!("too long");
    }
    if !is_put(alloc, out, kind, text.as_slice())? {
        bail!("no such kind");
    }
    Ok(())
}

/// Puts the answer of the reader of tokens or the parser; false for another kind.
fn is_put(alloc: Global, out: &mut Text, kind: &str, text: &[u8]) -> Mem<bool>
    requires { length text.now ≤ FILE_BYTES }
{
    match kind {
        "tokens" => put_tokens(alloc, out, text)?,
        "places" => put_places(alloc, out, text)?,
        "count" => put_count(alloc, out, text)?,
        "refused" => put_refused(alloc, out, text)?,
        "parse" => put_parsed(alloc, out, text)?,
        "tree" => put_tree(alloc, out, text)?,
        "over" => put_over(alloc, out, text)?,
        _ => return Ok(false),
    }
    Ok(true)
}
