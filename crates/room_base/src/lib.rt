//! Rows of what every crate stands on: shelves and sinks, in memory and real, numbered texts, sets, lists and boxes.
//!
//! - `shelf CALLS | CALL, ..| FILE, ..`: what a shelf in memory answers to calls, each a path and a limit, and the
//!   count of faults after each. It holds these files, each a path and its text; the calls of these numbers are to
//!   fail.
//! - `files | CALL, ..`: the same of the real files that lie beside the rows.
//! - `endless | LIMIT`: what is answered to a reader without end, and how many bytes were taken of it.
//! - `memory ROOM MOST CALL | PIECE`: whether all of a piece was put into a sink in memory, what it holds then, and its
//!   count of faults.
//! - `stream fails | PIECE, ..`, `stream stops | ..`: whether all of each piece was put into a stream that takes five
//!   bytes in all, with the count of faults after each, and what the stream then has.
//! - `names | TEXT, .. | TEXT, ..`: the numbers that texts get, how many there are, and the numbers of others.
//! - `marks COUNT | NUMBER, .. | NUMBER, ..`: how many of the first numbers are marked, and whether all, and whether
//!   some of the second are.
//! - `list | NUMBER, .. | CHANGE | ..`: what a list becomes, and what is read of it.
//! - `boxed | NUMBER`: a number that went into a box, read there, and taken out of an equal box.
#![tactic(auto)]

mod printing;
mod sets;
mod shelves;
mod sinks;

use crate::sets::{put_boxed, put_list, put_marks, put_names};
use crate::shelves::{put_endless, put_files, put_shelf};
use crate::sinks::{put_memory, put_stream};
use anyhow::{Context, Result, bail};
use fore_base::text::Text;
use row_texts::shown;
use std::alloc::Global;
use std::rt::Files;

/// The answer to a row of this head and these texts. Real files are read by the handle.
pub fn answer<F: Files>(files: &F, alloc: Global, head: &str, texts: &[&str]) -> Result<String> {
    let mut out = Text::new(alloc);
    let (kind, more) = head.split_once(' ').unwrap_or((head, ""));
    if kind == "files" {
        let (calls, _) = texts.split_first().context("no calls")?;
        put_files(&mut out, alloc, files, calls)?;
    } else {
        put_answer(&mut out, alloc, kind, more, texts)?;
    }
    shown(alloc, &out)
}

fn put_answer(out: &mut Text, alloc: Global, kind: &str, more: &str, texts: &[&str]) -> Result<()> {
    let (first, rest) = texts.split_first().context("no text")?;
    match kind {
        "endless" => put_endless(out, alloc, first),
        "memory" => put_memory(out, alloc, more, first),
        "stream" => put_stream(out, alloc, more, first),
        "boxed" => put_boxed(out, alloc, first),
        "list" => put_list(out, alloc, first, rest),
        _ => put_paired(out, alloc, kind, more, first, rest),
    }
}

// The kinds that want two texts.
fn put_paired(
    out: &mut Text,
    alloc: Global,
    kind: &str,
    more: &str,
    first: &str,
    rest: &[&str],
) -> Result<()> {
    let (second, _) = rest.split_first().context("no second text")?;
    match kind {
        "shelf" => put_shelf(out, alloc, more, first, second),
        "names" => put_names(out, alloc, first, second),
        "marks" => put_marks(out, alloc, more, first, second),
        _ => bail!("no such kind"),
    }
}
