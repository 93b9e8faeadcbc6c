//! Rows of whole calls. `calling` makes one call of the program over files and two sinks in memory, `tables` makes many
//! over files that differ in little, `shelves` has a shelf whose files change, and `texts` how a C text stands in a
//! row.
//!
//! The answer is the status, and what is then on standard output and on standard error, in quotes.
//!
//! - `call WORDS | FILE`: of the words over the file x.c.
//! - `lines WORDS | LINES`: of the words over a file with these lines in its main, of which the first is line 3.
//! - `until WORDS | FILE | LAST`: the same as `call`, and of standard output only what stands before LAST.
//! - `least WORDS | FILE | BOXES | LAST`: the same as `call`, over the file x.box too where there are boxes, and each
//!   component of a report by the least automaton of its trees; where there is a LAST, only what stands before it.
//! - `boxes READ WORDS | FILE | BOXES | LAST`: over the files x.c and x.box, where this read fails; where there is a
//!   LAST, of standard output only what stands before it.
//! - `alike WORDS | FILE | BOXES | LAST | WORDS`: of both words over the files x.c and x.box, where both calls tell the
//!   same; of standard output only what stands before LAST.
//! - `changing WORDS | FIRST | LATER`: over files that all have the first bytes at the first read, and then the others.
//! - `failing MOST READ OUT NOTES WORDS | FILE`: where a put takes at most MOST bytes, and these reads and puts fail.
//! - `prefixes STATUSES FIRST LAST WORDS | FILE | BOXES`: over each beginning of the last file, of FIRST to LAST bytes.
//! - `fronts STATUSES FIRST LAST WORDS | FILE | BOXES`: over each beginning of FILE, beside the whole of BOXES.
//! - `noted STATUSES FIRST LAST WORDS | FILE | BOXES`: over each beginning of the last file: each line that is noted,
//!   with the first length at which it comes after another one.
//! - `replaced STATUSES WORDS | FILE | BOXES`: over the last file with each byte in turn replaced by each of five
//!   strange ones.
//! - `puts MOST WORDS | FILE`: where a put takes at most MOST bytes, and each put in turn fails.
//! - `component | REPORT`: the report, each component by the least automaton of its trees.
//! - `report NUMBER LINE STEP | NAME`: the report on a fault of this number.
#![tactic(auto)]

mod calling;
mod shelves;
mod tables;
mod texts;

use crate::calling::{Ends, STEADY, Told, are_alike, call, call_over, shown, shown_least};
use crate::shelves::ChangingShelf;
use crate::tables::{Varied, noted, prefixes, puts, replaced};
use crate::texts::{main_of, text_of};
use anyhow::{Context, Result, bail};
use fore_base::fault::Fault;
use fore_base::text::Text;
use fore_report::texts::unsafe_report;
use row_reports::least_report;
use row_texts::read_text;
use std::alloc::Global;
use std::thread::Threads;

/// The answer to a row of this head and these texts.
pub fn answer<R: Threads + Sync>(
    rt: &R,
    alloc: Global,
    head: &str,
    texts: &[&str],
) -> Result<String> {
    let words: Vec<&str> = head.split(' ').collect(alloc)?;
    let (kind, words) = words.as_slice().split_first().context("no kind")?;
    let (file, others) = texts.split_first().context("no file")?;
    let file = file_of(alloc, kind, file)?;
    match *kind {
        "call" | "lines" => steady(rt, alloc, words, &file, None),
        "least" => least(rt, alloc, words, &file, others),
        "component" => component(alloc, &file),
        "until" => {
            let last = others.first().context("no last text")?;
            steady(rt, alloc, words, &file, Some(*last))
        }
        "boxes" => with_boxes(rt, alloc, words, &file, others),
        "alike" => alike(rt, alloc, words, &file, others),
        "changing" => changing(rt, alloc, words, file, others),
        "failing" => failing(rt, alloc, words, &file),
        "prefixes" | "fronts" | "noted" | "replaced" => {
            answer_tables(rt, alloc, kind, words, &file, others)
        }
        "puts" => each_put(rt, alloc, words, &file),
        "report" => report(alloc, words),
        _ => bail!("no such kind"),
    }
}

/// The bytes of the file.
fn file_of(alloc: Global, kind: &str, text: &str) -> Result<Text> {
    match kind {
        "lines" => main_of(alloc, text),
        _ => read_text(alloc, text),
    }
}

/// The number that comes first, and the words behind it.
fn number_first<'a>(words: &'a [&'a str]) -> Result<(u64, &'a [&'a str])> {
    let (word, words) = words.split_first().context("a number too few")?;
    Ok((word.parse::<u64>()?, words))
}

fn steady<R: Threads + Sync>(
    rt: &R,
    alloc: Global,
    words: &[&str],
    file: &Text,
    last: Option<&str>,
) -> Result<String> {
    let told = call(rt, alloc, words, file.as_slice(), None, STEADY)?;
    shown(alloc, &told, last)
}

fn least<R: Threads + Sync>(
    rt: &R,
    alloc: Global,
    words: &[&str],
    file: &Text,
    others: &[&str],
) -> Result<String> {
    let boxes = boxes_of(alloc, others)?;
    let told = call(rt, alloc, words, file.as_slice(), bytes_of(&boxes), STEADY)?;
    shown_least(alloc, &told, others.get(1).copied())
}

/// The bytes of the file of boxes, if there is one.
fn boxes_of(alloc: Global, others: &[&str]) -> Result<Option<Text>> {
    match others.first() {
        None => Ok(None),
        Some(text) => Ok(Some(read_text(alloc, text)?)),
    }
}

/// The bytes of a file that may be there.
fn bytes_of<'a>(file: &'a Option<Text>) -> Option<&'a [u8]> {
    match file {
        None => None,
        Some(text) => Some(text.as_slice()),
    }
}

fn component(alloc: Global, report: &Text) -> Result<String> {
    let least = least_report(alloc, text_of(report.as_slice())?)?;
    Ok(format!(in alloc; "{least:?}")?)
}

fn with_boxes<R: Threads + Sync>(
    rt: &R,
    alloc: Global,
    words: &[&str],
    file: &Text,
    others: &[&str],
) -> Result<String> {
    let (read, words) = number_first(words)?;
    let ends = Ends { read, ..STEADY };
    let boxes = read_text(alloc, others.first().context("no file of boxes")?)?;
    let told = call(
        rt,
        alloc,
        words,
        file.as_slice(),
        Some(boxes.as_slice()),
        ends,
    )?;
    shown(alloc, &told, others.get(1).copied())
}

fn alike<R: Threads + Sync>(
    rt: &R,
    alloc: Global,
    words: &[&str],
    file: &Text,
    others: &[&str],
) -> Result<String> {
    let (boxes, others) = others.split_first().context("no file of boxes")?;
    let (last, others) = others.split_first().context("no last text")?;
    let others = others.first().context("no second words")?;
    let others: Vec<&str> = others.split(' ').collect(alloc)?;
    let boxes = read_text(alloc, boxes)?;
    let calls = Calls {
        file: file.as_slice(),
        boxes: boxes.as_slice(),
        others: others.as_slice(),
        last,
    };
    alike_over(rt, alloc, words, calls)
}

/// What both calls are over, the words of the second, and the text before which what is shown ends.
#[derive(Clone, Copy)]
struct Calls<'a> {
    file: &'a [u8],
    boxes: &'a [u8],
    others: &'a [&'a str],
    last: &'a str,
}

fn alike_over<R: Threads + Sync>(
    rt: &R,
    alloc: Global,
    words: &[&str],
    calls: Calls<'_>,
) -> Result<String> {
    let told = call(rt, alloc, words, calls.file, Some(calls.boxes), STEADY)?;
    alike_to(rt, alloc, &told, calls)
}

fn alike_to<R: Threads + Sync>(
    rt: &R,
    alloc: Global,
    told: &Told,
    calls: Calls<'_>,
) -> Result<String> {
    let boxes = Some(calls.boxes);
    let other = call(rt, alloc, calls.others, calls.file, boxes, STEADY)?;
    if !are_alike(told, &other) {
        bail!("two calls that tell different things");
    }
    shown(alloc, told, Some(calls.last))
}

fn changing<R: Threads + Sync>(
    rt: &R,
    alloc: Global,
    words: &[&str],
    file: Text,
    others: &[&str],
) -> Result<String> {
    let later = read_text(alloc, others.first().context("no later bytes")?)?;
    let mut shelf = ChangingShelf::new(alloc, file, later);
    let told = call_over(rt, alloc, words, &mut shelf, STEADY)?;
    shown(alloc, &told, None)
}

fn failing<R: Threads + Sync>(
    rt: &R,
    alloc: Global,
    words: &[&str],
    file: &Text,
) -> Result<String> {
    let (most, words) = number_first(words)?;
    let (read, words) = number_first(words)?;
    let (out, words) = number_first(words)?;
    let (notes, words) = number_first(words)?;
    let ends = Ends {
        most: most as usize,
        read,
        out,
        notes,
    };
    let told = call(rt, alloc, words, file.as_slice(), None, ends)?;
    shown(alloc, &told, None)
}

/// The kinds of many calls over one file that is changed.
fn answer_tables<'a, R: Threads + Sync>(
    rt: &R,
    alloc: Global,
    kind: &str,
    words: &'a [&'a str],
    file: &'a Text,
    others: &[&str],
) -> Result<String> {
    let (statuses, words) = words.split_first().context("no statuses")?;
    let boxes = boxes_of(alloc, others)?;
    let varied = Varied {
        statuses,
        words,
        file: file.as_slice(),
        boxes: bytes_of(&boxes),
        keeps_boxes: kind == "fronts",
    };
    match kind {
        "replaced" => replaced(rt, alloc, &varied),
        _ => each_prefix(rt, alloc, kind, &varied),
    }
}

fn each_prefix<R: Threads + Sync>(
    rt: &R,
    alloc: Global,
    kind: &str,
    varied: &Varied<'_>,
) -> Result<String> {
    let (first, words) = number_first(varied.words)?;
    let (last, words) = number_first(words)?;
    let varied = Varied { words, ..*varied };
    match kind {
        "noted" => noted(rt, alloc, &varied, first as usize, last as usize),
        _ => prefixes(rt, alloc, &varied, first as usize, last as usize),
    }
}

fn each_put<R: Threads + Sync>(
    rt: &R,
    alloc: Global,
    words: &[&str],
    file: &Text,
) -> Result<String> {
    let (most, words) = number_first(words)?;
    puts(rt, alloc, words, file.as_slice(), most as usize)
}

fn report(alloc: Global, words: &[&str]) -> Result<String> {
    let (number, words) = number_first(words)?;
    let (line, words) = number_first(words)?;
    let (step, _) = number_first(words)?;
    let text = unsafe_report(alloc, fault_of(number)?, u32::try_from(line)?, step, &[])?;
    let text = text_of(text.as_slice())?;
    Ok(format!(in alloc; "{text:?}")?)
}

fn fault_of(number: u64) -> Result<Fault> {
    match number {
        1 => Ok(Fault::NullDeref),
        2 => Ok(Fault::UninitDeref),
        3 => Ok(Fault::DanglingDeref),
        4 => Ok(Fault::InvalidFree),
        5 => Ok(Fault::DoubleFree),
        6 => Ok(Fault::Leak),
        7 => Ok(Fault::Assertion),
        8 => Ok(Fault::IndetTest),
        _ => bail!("no such fault"),
    }
}
