//! Rows of the pieces in which a call of the program works; `noting` has a gate that counts them.
//!
//! Of one call of the program over the file x.c and, where there are some, the file x.box.
//!
//! - `pieces WORDS | FILE | BOXES`: the status, and the numbers of the pieces that began, as far as the greatest.
//! - `rounds WORDS | FILE | BOXES`: the same, how often a piece 0 began, and how many pieces began in all.
#![tactic(auto)]

mod noting;

use crate::noting::Noting;
use anyhow::{Context, Result, bail};
use fore_base::memory::Mem;
use fore_call::forester;
use fore_outside::mem_shelf::MemShelf;
use fore_outside::mem_sink::MemSink;
use row_texts::read_text;
use std::alloc::Global;
use std::thread::Threads;

/// How many bytes a sink takes: more than the longest report of a row.
const ROOM: usize = 1048576;

/// The answer to a row of this head and these texts.
pub fn answer<R: Threads + Sync>(
    rt: &R,
    alloc: Global,
    head: &str,
    texts: &[&str],
) -> Result<String> {
    let (kind, words) = head.split_once(' ').context("no words")?;
    let gate = Noting::new(alloc)?;
    let status = status_of(rt, alloc, words, texts, &gate)?;
    let counts = gate.counts(alloc)?;
    match kind {
        "pieces" => pieces(alloc, status, counts.as_slice()),
        "rounds" => rounds(alloc, status, counts.as_slice()),
        _ => bail!("no such kind"),
    }
}

/// The status of the call of these words over these files, by this gate.
fn status_of<R: Threads + Sync>(
    rt: &R,
    alloc: Global,
    words: &str,
    texts: &[&str],
    gate: &Noting,
) -> Result<u8> {
    let mut shelf = MemShelf::new(alloc);
    for (path, text) in ["x.c", "x.box"].iter().zip(texts) {
        put_file(alloc, &mut shelf, path, text)?;
    }
    Ok(call(rt, alloc, words, &mut shelf, gate)?)
}

fn put_file(alloc: Global, shelf: &mut MemShelf, path: &str, text: &str) -> Result<()> {
    let bytes = read_text(alloc, text)?;
    shelf.add(path, bytes.as_slice())?;
    Ok(())
}

fn call<R: Threads + Sync>(
    rt: &R,
    alloc: Global,
    words: &str,
    shelf: &mut MemShelf,
    gate: &Noting,
) -> Mem<u8> {
    let words = words_of(alloc, words)?;
    let mut out = MemSink::new(alloc, ROOM, ROOM)?;
    let mut notes = MemSink::new(alloc, ROOM, ROOM)?;
    Ok(forester(
        rt,
        alloc,
        words.as_slice(),
        shelf,
        &mut out,
        &mut notes,
        gate,
    ))
}

fn words_of(alloc: Global, words: &str) -> Mem<Vec<String>> {
    let mut all = Vec::new(alloc);
    for word in words.split(' ') {
        all.push(String::from_str(alloc, word)?)?;
    }
    Ok(all)
}

/// The status and the numbers of the pieces. A number that came more often than the one before it is told besides.
fn pieces(alloc: Global, status: u8, counts: &[usize]) -> Result<String> {
    let mut text = match greatest_of(counts) {
        None => format!(in alloc; "{status} no pieces")?,
        Some(number) => format!(in alloc; "{status} pieces 0 to {number}")?,
    };
    let mut before = counts.first().copied().unwrap_or(0);
    for (number, count) in counts.iter().enumerate() {
        if before < *count {
            write!(text, ", {number} more often than the one before it")?;
        }
        before = *count;
    }
    Ok(text)
}

fn rounds(alloc: Global, status: u8, counts: &[usize]) -> Result<String> {
    let text = pieces(alloc, status, counts)?;
    let rounds = counts.first().copied().unwrap_or(0);
    let all = sum_of(counts);
    Ok(format!(in alloc; "{text}, rounds {rounds}, in all {all}")?)
}

/// The greatest number that came.
fn greatest_of(counts: &[usize]) -> Option<usize> {
    let mut greatest = None;
    for (number, count) in counts.iter().enumerate() {
        if 0 < *count {
            greatest = Some(number);
        }
    }
    greatest
}

fn sum_of(counts: &[usize]) -> usize {
    let mut all = 0usize;
    for count in counts {
        all = all.saturating_add(*count);
    }
    all
}
