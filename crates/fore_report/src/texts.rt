//! The texts of reports.
ghost use Rattle.std.specs.Prelude.{◌≡◌, ◌++◌, ◌∷◌, [], flat_map, codes, decimal, IfOk, OnOk};
ghost use Rattle.c_types.specs.declared.outcome.Outcome.{Outcome as Out};
ghost use Rattle.fore_words.specs.Usage.{ended_line};
ghost use Rattle.fore_report.specs.Texts.{
  fault_text,
  fault_line,
  fault_lines,
  choices_line,
  spaced,
  trace_lines,
  unsafe_text,
  run_text,
};

use c_types::outcome::Outcome;
use fix_core::AbsTrace;
use fore_base::fault::Fault;
use fore_base::memory::Mem;
use fore_base::text::Text;
use std::alloc::Global;

/// The name by which a fault is printed.
pub fn fault_text(kind: Fault) -> &'static [u8]
    ensures { result.now ≡ fault_text kind }
{
    match kind {
        Fault::NullDeref => b"null dereference",
        Fault::UninitDeref => b"uninitialised dereference",
        Fault::DanglingDeref => b"dangling dereference",
        Fault::InvalidFree => b"invalid free",
        Fault::DoubleFree => b"double free",
        Fault::Leak => b"leak",
        Fault::Assertion => b"failed assertion",
        Fault::IndetTest => b"indeterminate test",
    }
}

/// The report on a fault that verification found, with the choices that lead to it, whole. Err is want of memory.
pub fn unsafe_report(alloc: Global, kind: Fault, line: u32, step: u64, choices: &[u8]) -> Mem<Text>
    ensures { IfOk result (λ text. text ≡ unsafe_text kind line step choices.now) }
{
    let mut text = Text::new(alloc);
    text.put(b"UNSAFE\n")?;
    put_fault(&mut text, kind, line, step)?;
    put_choices(&mut text, choices)?;
    Ok(text)
}

/// The report on how a run came out, whole.
///
/// # Errors
///
/// Want of memory for the text.
pub fn run_report(alloc: Global, outcome: Outcome) -> Mem<Text>
    ensures { IfOk result (λ text. text ≡ run_text outcome) }
{
    let mut text = Text::new(alloc);
    match outcome {
        Outcome::Ended { step } => put_counted(&mut text, b"ENDED\nstep ", step)?,
        Outcome::Fault { kind, line, step } => put_met(&mut text, kind, line, step)?,
        Outcome::Starved { step } => put_counted(&mut text, b"STARVED\nstep ", step)?,
        Outcome::BadChoice { index } => put_counted(&mut text, b"BAD CHOICE\nindex ", index)?,
        Outcome::StillRunning => text.put(b"STILL RUNNING\n")?,
    }
    Ok(text)
}

/// A fault that a run met, with the first line.
fn put_met(text: &mut Text, kind: Fault, line: u32, step: u64) -> Mem<()>
    ensures { OnOk result (text.new ≡ text.old ++ run_text (Out.Fault kind line step)) }
{
    text.put(b"FAULT\n")?;
    put_fault(text, kind, line, step)?;
    Ok(())
}

/// The lines of a fault: its number and name, its line in the file, and its step.
fn put_fault(text: &mut Text, kind: Fault, line: u32, step: u64) -> Mem<()>
    ensures { OnOk result (text.new ≡ text.old ++ fault_lines kind line step) }
{
    put_fault_line(text, kind)?;
    put_counted(text, b"line ", line as u64)?;
    put_counted(text, b"step ", step)?;
    Ok(())
}

/// The line with the number and name of a fault.
fn put_fault_line(text: &mut Text, kind: Fault) -> Mem<()>
    ensures { OnOk result (text.new ≡ text.old ++ fault_line kind) }
{
    text.put(b"fault ")?;
    text.put_number(kind.number() as u64)?;
    text.put(b" ")?;
    text.put(fault_text(kind))?;
    text.put(b"\n")?;
    Ok(())
}

/// The lines on a trace.
pub fn put_trace(text: &mut Text, trace: &AbsTrace) -> Mem<()>
    ensures { OnOk result (text.new ≡ text.old ++ trace_lines trace.now) }
{
    put_fault_line(text, trace.fault)?;
    put_counted(text, b"line ", trace.line as u64)?;
    put_counted(text, b"steps ", trace.steps)?;
    put_choices(text, trace.choices.as_slice())?;
    put_way(text, trace.nodes.as_slice())?;
    put_counted(text, b"edge ", trace.edge as u64)?;
    Ok(())
}

/// The line of the choices.
fn put_choices(text: &mut Text, choices: &[u8]) -> Mem<()>
    ensures { OnOk result (text.new ≡ text.old ++ choices_line choices.now) }
{
    text.put(b"choices ")?;
    if choices.is_empty() {
        text.put(b"-")?;
    } else {
        put_digits(text, choices)?;
    }
    text.put(b"\n")?;
    Ok(())
}

/// Numbers one after the other, with nothing between them.
fn put_digits(text: &mut Text, numbers: &[u8]) -> Mem<()>
    ensures { OnOk result (text.new ≡ text.old ++ flat_map decimal numbers.now) }
{
    for number in numbers {
        text.put_number(*number as u64)?;
    }
    Ok(())
}

/// The line of the nodes of a trace.
fn put_way(text: &mut Text, nodes: &[u32]) -> Mem<()>
    ensures { OnOk result (text.new ≡ text.old ++ ended_line (codes "trace" ++ spaced nodes.now)) }
{
    text.put(b"trace")?;
    put_spaced(text, nodes)?;
    text.put(b"\n")?;
    Ok(())
}

/// Numbers, with a space before each.
fn put_spaced(text: &mut Text, numbers: &[u32]) -> Mem<()>
    ensures { OnOk result (text.new ≡ text.old ++ spaced numbers.now) }
{
    for number in numbers {
        text.put(b" ")?;
        text.put_number(*number as u64)?;
    }
    Ok(())
}

/// A word, and a number that ends its line.
pub(crate) fn put_counted(text: &mut Text, word: &[u8], number: u64) -> Mem<()>
    ensures { OnOk result (text.new ≡ text.old ++ (word.now ++ (decimal number ++ 10 ∷ []))) }
{
    text.put(word)?;
    text.put_number(number)?;
    text.put(b"\n")?;
    Ok(())
}
