//! Rows of generated programs; `reading` reads what was generated.
//!
//! - `program | KIND N`: the program, `\n` for each newline.
//! - `lines | KIND N`: how many lines it has.
//! - `boxes | KIND N`: the file of boxes, `\n` for each newline; it is the same for each kind and number.
//! - `accepted | KIND N`: how many of the programs of one phase to N phases the front end takes.
//! - `table | KIND N`: how many boxes that file has, read over the structs of the program.
#![tactic(auto)]

mod reading;

use crate::reading::{accepted, boxes_read};
use anyhow::{Context, Result, bail};
use fore_base::memory::Mem;
use fore_base::text::Text;
use fore_gen::{dll_boxes, generate};
use fore_words::{Asked, Kind, read_words};
use row_texts::shown;
use std::alloc::Global;

/// The answer to a row of this head and these texts.
pub fn answer(alloc: Global, head: &str, texts: &[&str]) -> Result<String> {
    let text = texts.first().context("no text")?;
    let (kind, phases) = asked(alloc, text)?;
    let mut out = Text::new(alloc);
    match head {
        "program" => put_program(alloc, &mut out, kind, phases)?,
        "lines" => out.put_number(lines(alloc, kind, phases)?)?,
        "boxes" => put_lines(&mut out, dll_boxes())?,
        "accepted" => out.put_number(accepted(alloc, kind, phases)?)?,
        "table" => out.put_number(boxes_read(alloc, kind, phases)?)?,
        _ => bail!("no such kind"),
    }
    shown(alloc, &out)
}

/// The kind and the phases that the row names, as the words of the command line name them.
fn asked(alloc: Global, text: &str) -> Result<(Kind, u32)> {
    let mut words = Vec::new(alloc);
    words.push(String::from_str(alloc, "gen")?)?;
    for word in text.split(' ') {
        words.push(String::from_str(alloc, word)?)?;
    }
    match read_words(alloc, words.as_slice()) {
        Ok(Asked::Gen { kind, phases }) => Ok((kind, phases)),
        _ => bail!("no kind and phases"),
    }
}

fn put_program(alloc: Global, out: &mut Text, kind: Kind, phases: u32) -> Mem<()> {
    let program = generate(alloc, kind, phases)?;
    put_lines(out, program.as_slice())
}

/// Puts the text, `\n` for each newline.
fn put_lines(out: &mut Text, text: &[u8]) -> Mem<()> {
    for byte in text {
        if *byte == b'\n' {
            out.put(b"\\n")?;
        } else {
            out.put(&[*byte])?;
        }
    }
    Ok(())
}

fn lines(alloc: Global, kind: Kind, phases: u32) -> Mem<u64> {
    let program = generate(alloc, kind, phases)?;
    let mut count: u64 = 0;
    for byte in program.as_slice() {
        if *byte == b'\n' {
            count = count.saturating_add(1);
        }
    }
    Ok(count)
}
