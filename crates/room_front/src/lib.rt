//! Rows of names, types and limits, and of the whole front end.
#![tactic(auto)]

ghost use Rattle.std.specs.Prelude.{◌≤◌, length};

mod whole;

use crate::whole::{put_checked, put_read};
use anyhow::{Context, Result, bail};
use fore_base::limits::FILE_BYTES;
use fore_base::memory::Mem;
use fore_base::text::Text;
use row_texts::{read_text, shown};
use std::alloc::Global;

/// The answer to a row of this head and these texts.
pub fn answer(alloc: Global, head: &str, texts: &[&str]) -> Result<String> {
    let row = texts.first().context("no text")?;
    let text = read_text(alloc, row)?;
    if text.len() > FILE_BYTES {
        bail!("too long");
    }
    let mut out = Text::new(alloc);
    if !is_put(alloc, &mut out, head, text.as_slice())? {
        bail!("no such kind");
    }
    shown(alloc, &out)
}

/// Puts the answer of the checker or the front end; false for another kind.
fn is_put(alloc: Global, out: &mut Text, kind: &str, text: &[u8]) -> Mem<bool>
    requires { length text.now ≤ FILE_BYTES }
{
    match kind {
        "check" => put_checked(alloc, out, text)?,
        "front" => put_read(alloc, out, text)?,
        _ => return Ok(false),
    }
    Ok(true)
}
