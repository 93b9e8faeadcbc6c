// The boxes of a text, as they are written.
ghost use Rattle.std.specs.Prelude.{◌≡◌, ◌≤◌, ◌+◌, ◌⊎◌, [], ℕ, true, None};
ghost use Rattle.std.specs.Prelude.{Some, Ok, Err, length, IfOk, IfErr, OnOk, IsTrue, List, ◌↔◌};
ghost use Rattle.fa_lines.specs.Says.{Says};
ghost use Rattle.fa_written.specs.Drafts.{IsText, IsFirstBad};
ghost use Rattle.fa_written.specs.Faults.{IsFault, Answers};
ghost use Rattle.fa_written.specs.inner.Reached.{EndsWithin, Took, Refuses, Reached, open_missing, is_end};

use crate::draft::{BoxDraft, OpenBox, Reading};
use crate::fault::DraftFault;
use crate::limits::TEXT_BYTES;
use crate::moves::moved;
use crate::references::missing;
use crate::splitting::split_line;
use crate::unfit::Unfit;
use fa_lines::laws::lines_say_one_thing;
use fa_lines::line::Line;
use fa_lines::line_of;
use fore_base::list::List;
use std::alloc::Global;

/// Whether a line ends a box.
fn ends(line: &Line) -> bool
    ensures { result ≡ is_end line.now }
{
    match line {
        Line::Ends => true,
        Line::Skipped | Line::Opens { .. } | Line::Root(_, _) | Line::Rule(_, _) => false,
    }
}

/// Whether a box that the line ends refers to components that it has.
fn check_open(line: &Line, reading: &Reading) -> Result<(), DraftFault>
    ensures refs { OnOk result (EndsWithin line.now reading.now) }
    ensures err { IfErr result (λ e. (is_end line.now ≡ true) × (n : ℕ) × (e ≡ DraftFault.B1 n)
        × (open_missing reading.now.current ≡ Some n)) }
{
    if !ends(line) {
        return Ok(());
    }
    match missing(&reading.current) {
        Some(line) => Err(DraftFault::B1 { line }),
        None => Ok(()),
    }
}

/// What is read with a line more.
#[tactic(auto, using(crate::proofs::ReachLemmas::took, crate::proofs::ReachLemmas::missed))]
fn take_said(
    alloc: Global,
    bytes: &[u8],
    number: u32,
    reading: Reading,
    line: Line,
) -> Result<Reading, DraftFault>
    requires { Says bytes.now line }
    ensures ok { IfOk result (Took bytes.now number reading) }
    ensures err { IfErr result (Refuses bytes.now number reading) }
{
    check_open(&line, &reading)?;
    match moved(alloc, reading, number, line) {
        Ok(next) => Ok(next),
        Err(Unfit::Other) => Err(DraftFault::B1 { line: number }),
        Err(Unfit::Memory) => Err(DraftFault::Memory),
    }
}

/// What is read with the line of these bytes more.
#[tactic(auto, using(crate::proofs::ReachLemmas::not_said))]
fn take_line(
    alloc: Global,
    bytes: &[u8],
    number: u32,
    reading: Reading,
) -> Result<Reading, DraftFault>
    ensures ok { IfOk result (Took bytes.now number reading) }
    ensures err { IfErr result (Refuses bytes.now number reading) }
{
    match line_of(alloc, bytes)? {
        Some(line) => take_said(alloc, bytes, number, reading, line),
        None => Err(DraftFault::B1 { line: number }),
    }
}

/// What all lines of a text give, and the number of the line behind them.
#[tactic(auto, using(crate::proofs::ReachLemmas::reached_next, crate::proofs::ReachLemmas::reached_start))]
fn read_lines(alloc: Global, text: &[u8]) -> Result<(Reading, u32), DraftFault>
    requires { length text.now ≤ TEXT_BYTES }
    ensures ok { IfOk result (λ p. Reached text.now p.1 [] p.0) }
    ensures err { IfErr result (IsFault text.now) }
{
    lines_say_one_thing();
    let mut reading = Reading {
        boxes: List::new(alloc),
        current: None,
    };
    let mut number: u32 = 1;
    let mut rest = text;
    'lines: while !rest.is_empty() {
        let (line, others) = split_line(rest);
        match take_line(alloc, line, number, reading) {
            Ok(next) => reading = next,
            Err(fault) => return Err(fault),
        }
        number += 1;
        rest = others;
    }
    Ok((reading, number))
}

/// Whether no box is left open.
fn is_whole(current: &Option<OpenBox>) -> bool
    ensures { IsTrue result ↔ (current.now ≡ None) }
{
    match current {
        None => true,
        Some(_) => false,
    }
}

/// The boxes, where none is left open.
fn finished(text: &[u8], reading: Reading, number: u32) -> Result<List<BoxDraft>, DraftFault>
    requires { Reached text.now number [] reading }
    ensures ok { IfOk result (IsText text.now) }
    ensures err { IfErr result (IsFault text.now) }
{
    let Reading { boxes, current } = reading;
    if is_whole(&current) {
        Ok(boxes)
    } else {
        Err(DraftFault::B1 { line: number })
    }
}

/// The boxes of a text, or why it is none.
fn read_whole(alloc: Global, text: &[u8]) -> Result<List<BoxDraft>, DraftFault>
    requires { length text.now ≤ TEXT_BYTES }
    ensures ok { IfOk result (IsText text.now) }
    ensures err { IfErr result (IsFault text.now) }
{
    match read_lines(alloc, text) {
        Ok((reading, number)) => finished(text, reading, number),
        Err(fault) => Err(fault),
    }
}

/// The boxes of a text of at most `TEXT_BYTES` bytes, as they are written.
///
/// # Errors
///
/// `DraftFault::B1` with the first line that is in the way: one with which no file of boxes is begun, where the text
/// ends too early the line behind the last, or a reference to a component that its box does not have, which is known
/// at the line that says that the box ends, also where ports are missing there. `DraftFault::Memory` for want of
/// memory.
pub fn read_drafts(alloc: Global, text: &[u8]) -> Result<List<BoxDraft>, DraftFault>
    requires { length text.now ≤ TEXT_BYTES }
    ensures ok { IfOk result (IsText text.now) }
    ensures err { IfErr result (IsFault text.now) }
    ensures boxes { (boxes : List BoxDraft) → IsText text.now boxes → Answers result (Ok boxes) }
    ensures first { (line : ℕ) → IsFirstBad text.now line → Answers result (Err (DraftFault.B1 line)) }
{
    lines_say_one_thing();
    read_whole(alloc, text)
}
