// Many calls in a row: over files that differ from one in little, and with each put failing in turn.
//
// What came of them is told by how many there were, if each came out as is wanted, and else by the first that did not.

use crate::calling::{Ends, STEADY, Told, call, shown};
use crate::texts::text_of;
use anyhow::{Context, Result, bail};
use std::alloc::Global;
use std::thread::Threads;

/// What stands in the place of each byte in turn.
const STRANGE: &[u8] = &[b'#', b'"', b'(', 0, 255];

/// The words, the file x.c, and the file x.box where there is one: it is the last of them that is changed, or the first
/// where the boxes are kept. The digits are those of the statuses that may come.
#[derive(Clone, Copy)]
pub struct Varied<'a> {
    pub statuses: &'a str,
    pub words: &'a [&'a str],
    pub file: &'a [u8],
    pub boxes: Option<&'a [u8]>,
    pub keeps_boxes: bool,
}

/// The bytes that are changed.
fn varied_bytes<'a>(varied: &Varied<'a>) -> &'a [u8] {
    match varied.boxes {
        Some(boxes) if !varied.keeps_boxes => boxes,
        _ => varied.file,
    }
}

/// What comes of the call with these bytes in their place.
fn call_with<R: Threads + Sync>(
    rt: &R,
    alloc: Global,
    varied: &Varied<'_>,
    bytes: &[u8],
) -> Result<Told> {
    match varied.boxes {
        Some(_) if !varied.keeps_boxes => {
            call(rt, alloc, varied.words, varied.file, Some(bytes), STEADY)
        }
        boxes => call(rt, alloc, varied.words, bytes, boxes, STEADY),
    }
}

/// Whether the status may come, and a text stands where one of that status belongs, and nowhere else.
fn is_wanted(told: &Told, statuses: &str) -> bool {
    let is_out = !told.out.bytes().is_empty();
    let is_noted = !told.notes.bytes().is_empty();
    let stands = match told.status {
        0 | 1 | 3 => is_out && !is_noted,
        2 | 4 | 5 => is_noted && !is_out,
        _ => !is_out && !is_noted,
    };
    stands
        && statuses
            .bytes()
            .any(|digit| digit.checked_sub(b'0') == Some(told.status))
}

/// The calls over the beginnings of the file, of `first` bytes to `last` bytes.
pub fn prefixes<R: Threads + Sync>(
    rt: &R,
    alloc: Global,
    varied: &Varied<'_>,
    first: usize,
    last: usize,
) -> Result<String> {
    let whole = varied_bytes(varied);
    let mut count = 0u64;
    for length in first..=last {
        let bytes = whole.get(..length).context("no such beginning")?;
        let told = call_with(rt, alloc, varied, bytes)?;
        if !is_wanted(&told, varied.statuses) {
            return missed(alloc, length, &told);
        }
        count = count.saturating_add(1);
    }
    counted(alloc, count)
}

/// What is noted over the beginnings of the file, of `first` bytes to `last` bytes: each line, with the first length at
/// which it comes after another one.
pub fn noted<R: Threads + Sync>(
    rt: &R,
    alloc: Global,
    varied: &Varied<'_>,
    first: usize,
    last: usize,
) -> Result<String> {
    let whole = varied_bytes(varied);
    let mut out = String::new(alloc);
    let mut before = String::new(alloc);
    for length in first..=last {
        let bytes = whole.get(..length).context("no such beginning")?;
        let note = note_with(rt, alloc, varied, bytes)?;
        if note.as_str() != before.as_str() {
            put_note(&mut out, length, note.as_str())?;
            before = note;
        }
    }
    Ok(out)
}

/// What is on standard error with these bytes in their place, without the end of its line; and what came of the call
/// where that was not wanted.
fn note_with<R: Threads + Sync>(
    rt: &R,
    alloc: Global,
    varied: &Varied<'_>,
    bytes: &[u8],
) -> Result<String> {
    let told = call_with(rt, alloc, varied, bytes)?;
    if !is_wanted(&told, varied.statuses) {
        return shown(alloc, &told, None);
    }
    let note = text_of(told.notes.bytes())?;
    Ok(String::from_str(alloc, note.trim_end())?)
}

fn put_note(out: &mut String, length: usize, note: &str) -> Result<()> {
    if !out.is_empty() {
        write!(out, ", ")?;
    }
    write!(out, "from {length}: {note}")?;
    Ok(())
}

/// The calls over the file with each byte in turn replaced by each of the strange ones.
pub fn replaced<R: Threads + Sync>(rt: &R, alloc: Global, varied: &Varied<'_>) -> Result<String> {
    let whole = varied_bytes(varied);
    let mut count = 0u64;
    for at in 0..whole.len() {
        for byte in STRANGE {
            let bytes = with_byte(alloc, whole, at, *byte)?;
            let told = call_with(rt, alloc, varied, bytes.as_slice())?;
            if !is_wanted(&told, varied.statuses) {
                return missed(alloc, at, &told);
            }
            count = count.saturating_add(1);
        }
    }
    counted(alloc, count)
}

/// The bytes with this one in this place.
fn with_byte(alloc: Global, whole: &[u8], at: usize, byte: u8) -> Result<Vec<u8>> {
    let mut bytes = Vec::from_slice(alloc, whole)?;
    *bytes.get_mut(at).context("no such place")? = byte;
    Ok(bytes)
}

/// The calls in which a put takes at most so many bytes and the first put fails, the second, and so on to the last:
/// each ends with status 6, and what was put before is there.
pub fn puts<R: Threads + Sync>(
    rt: &R,
    alloc: Global,
    words: &[&str],
    file: &[u8],
    most: usize,
) -> Result<String> {
    if most == 0 {
        bail!("no bytes in a put");
    }
    let whole = call(rt, alloc, words, file, None, STEADY)?;
    let mut count = 0u64;
    for before in (0..put_bytes(&whole).len()).step_by(most) {
        count = count.saturating_add(1);
        let ends = Ends {
            most,
            read: 0,
            out: count,
            notes: count,
        };
        let told = call(rt, alloc, words, file, None, ends)?;
        if !is_cut(&whole, &told, before) {
            return missed(alloc, before, &told);
        }
    }
    counted(alloc, count)
}

/// The text that was put.
fn put_bytes(told: &Told) -> &[u8] {
    match told.status {
        0 | 1 | 3 => told.out.bytes(),
        _ => told.notes.bytes(),
    }
}

/// Whether the call ended with status 6, and put so many bytes of what was put otherwise where they belong, and nothing
/// elsewhere.
fn is_cut(whole: &Told, told: &Told, before: usize) -> bool {
    let (put, other) = match whole.status {
        0 | 1 | 3 => (told.out.bytes(), told.notes.bytes()),
        _ => (told.notes.bytes(), told.out.bytes()),
    };
    told.status == 6 && other.is_empty() && put_bytes(whole).get(..before) == Some(put)
}

fn counted(alloc: Global, count: u64) -> Result<String> {
    Ok(format!(in alloc; "{count} calls")?)
}

/// The number of the first that came out otherwise, and what came of it.
fn missed(alloc: Global, number: usize, told: &Told) -> Result<String> {
    let shown = shown(alloc, told, None)?;
    Ok(format!(in alloc; "at {number}: {shown}")?)
}
