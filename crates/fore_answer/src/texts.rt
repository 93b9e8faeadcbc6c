// The lines of refusals, and the statuses of results.
ghost use Rattle.std.specs.Prelude.{◌≡◌, IfOk};
ghost use Rattle.fore_answer.specs.Texts.{
  letter_text,
  broken_text,
  box_text,
  refusal_text,
  run_status,
  verdict_status,
};

use crate::status::{FAULT, NO_FAULT, UNKNOWN};
use c_front::{Broken, Letter};
use c_types::outcome::Outcome;
use fore_base::memory::Mem;
use fore_base::text::Text;
use fore_read::Refusal;
use fore_report::Verdict;
use std::alloc::Global;

/// The line that says why what is asked is refused, whole.
///
/// # Errors
///
/// Want of memory for the text.
pub fn refusal_line(alloc: Global, why: Refusal) -> Mem<Text>
    ensures { IfOk result (λ text. text ≡ refusal_text why) }
{
    match why {
        Refusal::TooLong => Text::from_slice(alloc, b"refused K1 file\n"),
        Refusal::Breaks(broken) => broken_line(alloc, broken),
        Refusal::BoxesTooLong => Text::from_slice(alloc, b"refused K1 boxes\n"),
        Refusal::BoxRule { rule, line } => box_line(alloc, b"B", rule, line),
        Refusal::BoxLimit { line } => box_line(alloc, b"K", 6, line),
    }
}

/// The line that names a rule and the place at which a C file breaks it.
fn broken_line(alloc: Global, broken: Broken) -> Mem<Text>
    ensures { IfOk result (λ text. text ≡ broken_text broken) }
{
    let mut text = Text::new(alloc);
    text.put(b"refused ")?;
    text.put(letter_text(broken.letter))?;
    text.put_number(broken.number as u64)?;
    text.put(b" ")?;
    text.put_number(broken.at.line as u64)?;
    text.put(b":")?;
    text.put_number(broken.at.column as u64)?;
    text.put(b"\n")?;
    Ok(text)
}

/// The line that names a rule of boxes, or their limit, and the line at which a file of boxes breaks it.
fn box_line(alloc: Global, letter: &[u8], number: u8, line: u32) -> Mem<Text>
    ensures { IfOk result (λ text. text ≡ box_text letter.now number line) }
{
    let mut text = Text::new(alloc);
    text.put(b"refused ")?;
    text.put(letter)?;
    text.put_number(number as u64)?;
    text.put(b" line ")?;
    text.put_number(line as u64)?;
    text.put(b"\n")?;
    Ok(text)
}

fn letter_text(letter: Letter) -> &'static [u8]
    ensures { result.now ≡ letter_text letter }
{
    match letter {
        Letter::Lexical => b"L",
        Letter::Profile => b"P",
        Letter::Syntax => b"S",
        Letter::Typing => b"T",
        Letter::Limit => b"K",
    }
}

/// The status of a verdict.
pub fn verdict_status(verdict: Verdict) -> u8
    ensures { result ≡ verdict_status verdict }
{
    match verdict {
        Verdict::Safe => NO_FAULT,
        Verdict::Unsafe => FAULT,
        Verdict::Unknown => UNKNOWN,
    }
}

/// The status with which a run ends.
pub fn run_status(outcome: Outcome) -> u8
    ensures { result ≡ run_status outcome }
{
    match outcome {
        Outcome::Ended { .. } => NO_FAULT,
        Outcome::Fault { .. } => FAULT,
        Outcome::Starved { .. } | Outcome::BadChoice { .. } | Outcome::StillRunning => UNKNOWN,
    }
}
