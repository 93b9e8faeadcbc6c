// One call of the program over files and two sinks in memory.

use crate::texts::text_of;
use anyhow::{Context, Result};
use fore_base::memory::Mem;
use fore_call::forester;
use fore_outside::mem_shelf::MemShelf;
use fore_outside::mem_sink::MemSink;
use fore_outside::shelf::Shelf;
use par_kit::gate::NoGate;
use row_reports::least_report;
use std::alloc::Global;
use std::thread::Threads;

/// How many bytes a sink takes: more than the longest report of a row.
const ROOM: usize = 1048576;

/// How the shelf and the sinks behave.
#[derive(Clone, Copy)]
pub struct Ends {
    /// How many bytes one put takes at most.
    pub most: usize,
    /// Which read fails, the first being 1; 0 for none.
    pub read: u64,
    /// Which put to standard output fails.
    pub out: u64,
    /// Which put to standard error fails.
    pub notes: u64,
}

/// Nothing fails, and a text is put at once.
pub const STEADY: Ends = Ends {
    most: 512,
    read: 0,
    out: 0,
    notes: 0,
};

/// What came of a call: the status, and what is then on standard output and on standard error.
#[derive(Drop)]
pub struct Told {
    pub status: u8,
    pub out: MemSink,
    pub notes: MemSink,
}

/// What comes of these words over the file x.c of these bytes and, where there are some, the file x.box.
pub fn call<R: Threads + Sync>(
    rt: &R,
    alloc: Global,
    words: &[&str],
    file: &[u8],
    boxes: Option<&[u8]>,
    ends: Ends,
) -> Result<Told> {
    let mut shelf = MemShelf::new(alloc);
    shelf.add("x.c", file)?;
    if let Some(boxes) = boxes {
        shelf.add("x.box", boxes)?;
    }
    shelf.fail(ends.read)?;
    call_over(rt, alloc, words, &mut shelf, ends)
}

/// What comes of these words over a shelf.
pub fn call_over<R: Threads + Sync, L: Shelf>(
    rt: &R,
    alloc: Global,
    words: &[&str],
    shelf: &mut L,
    ends: Ends,
) -> Result<Told> {
    let words = words_of(alloc, words)?;
    let mut out = sink(alloc, ends.most, ends.out)?;
    let mut notes = sink(alloc, ends.most, ends.notes)?;
    let status = forester(
        rt,
        alloc,
        words.as_slice(),
        shelf,
        &mut out,
        &mut notes,
        &NoGate,
    );
    Ok(Told { status, out, notes })
}

/// The words of a head; two quotes stand for the empty one.
fn words_of(alloc: Global, words: &[&str]) -> Mem<Vec<String>> {
    let mut all = Vec::new(alloc);
    for word in words {
        all.push(String::from_str(alloc, plain(word))?)?;
    }
    Ok(all)
}

fn plain<'a>(word: &'a str) -> &'a str {
    match word {
        "''" => "",
        _ => word,
    }
}

/// A sink of which this put fails.
fn sink(alloc: Global, most: usize, fails: u64) -> Mem<MemSink> {
    let mut sink = MemSink::new(alloc, ROOM, most.max(1))?;
    sink.fail(fails)?;
    Ok(sink)
}

/// Whether both calls told the same.
pub fn are_alike(left: &Told, right: &Told) -> bool {
    left.status == right.status
        && left.out.bytes() == right.out.bytes()
        && left.notes.bytes() == right.notes.bytes()
}

/// The status, and both texts in quotes; where there is a `last`, of standard output only what stands before it.
pub fn shown(alloc: Global, told: &Told, last: Option<&str>) -> Result<String> {
    let (out, mark) = cut(text_of(told.out.bytes())?, last)?;
    line_of(alloc, told, out, mark)
}

/// The same, with the report on standard output by the least automata of its components.
pub fn shown_least(alloc: Global, told: &Told, last: Option<&str>) -> Result<String> {
    let (out, mark) = cut(text_of(told.out.bytes())?, last)?;
    let out = least_report(alloc, out)?;
    line_of(alloc, told, out.as_str(), mark)
}

/// What stands before `last`, and what is shown of a text that is cut.
fn cut<'a>(out: &'a str, last: Option<&str>) -> Result<(&'a str, &'static str)> {
    match last {
        None => Ok((out, "")),
        Some(last) => {
            let (before, _) = out
                .split_once(last)
                .context("no such text on standard output")?;
            Ok((before, ".."))
        }
    }
}

fn line_of(alloc: Global, told: &Told, out: &str, mark: &str) -> Result<String> {
    let notes = text_of(told.notes.bytes())?;
    Ok(format!(in alloc; "{} {out:?}{mark} {notes:?}", told.status)?)
}
