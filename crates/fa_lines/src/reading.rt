// What the pieces of a line say.
ghost use Rattle.std.specs.Prelude.{◌≡◌, [], ◌∷◌};
ghost use Rattle.std.specs.Prelude.{IfOk, MatchOption};
ghost use Rattle.fa_lines.specs.Says.{Says};
ghost use Rattle.fa_lines.specs.declared.line.Line as spec;
ghost use Rattle.fa_lines.specs.inner.Reading as read;
ghost use Rattle.fa_lines.specs.inner.Reading.{Gives};

use crate::line::Line;
use crate::pieces::pieces;
use crate::terms::term_of;
use crate::texts::{is, is_word, number_of, state_of};
use crate::unread::Unread;
use fore_base::list::{Copies, List};
use fore_base::memory::Mem;
use fore_base::text::Text;
use std::alloc::{AllocError, Global};

#[tactic(auto, unfolding(crate::specs::inner::Reading::box_of))]
fn box_without_output(alloc: Global, name: &Text, mark: &Text, input: &Text) -> Result<Line, Unread>
    ensures { Gives (λ x. x) result (read.box_of (name.now ∷ mark.now ∷ input.now ∷ [])) }
{
    if !is(mark, b"in") || !is_word(name) || !is_word(input) {
        return Err(Unread::Other);
    }
    let name = name.copy(alloc)?;
    let input = input.copy(alloc)?;
    Ok(Line::Opens {
        name,
        input,
        output: None,
    })
}

#[tactic(auto, unfolding(crate::specs::inner::Reading::box_of))]
fn box_with_output(
    alloc: Global,
    name: &Text,
    mark: &Text,
    input: &Text,
    other: &Text,
    output: &Text,
) -> Result<Line, Unread>
    ensures { Gives (λ x. x) result
        (read.box_of (name.now ∷ mark.now ∷ input.now ∷ other.now ∷ output.now ∷ [])) }
{
    if !is(mark, b"in") || !is(other, b"out") {
        return Err(Unread::Other);
    }
    if !is_word(name) || !is_word(input) || !is_word(output) {
        return Err(Unread::Other);
    }
    let name = name.copy(alloc)?;
    let input = input.copy(alloc)?;
    let output = output.copy(alloc)?;
    Ok(Line::Opens {
        name,
        input,
        output: Some(output),
    })
}

#[tactic(auto, unfolding(crate::specs::inner::Reading::box_of))]
fn box_of(alloc: Global, pieces: &[Text]) -> Result<Line, Unread>
    ensures { Gives (λ x. x) result (read.box_of pieces.now) }
{
    match pieces {
        [name, mark, input] => box_without_output(alloc, name, mark, input),
        [name, mark, input, other, output] => {
            box_with_output(alloc, name, mark, input, other, output)
        }
        _ => Err(Unread::Other),
    }
}

fn states_of(alloc: Global, pieces: &[Text]) -> Result<List<u32>, Unread>
    ensures { Gives (λ x. x) result (read.states_of pieces.now) }
{
    let mut found = List::new(alloc);
    for piece in pieces {
        match state_of(piece) {
            Some(state) => found.push(state)?,
            None => return Err(Unread::Other),
        }
    }
    Ok(found)
}

#[tactic(auto, unfolding(crate::specs::inner::Reading::root_of))]
fn root_of(alloc: Global, pieces: &[Text]) -> Result<Line, Unread>
    ensures { Gives (λ x. x) result (read.root_of pieces.now) }
{
    match pieces {
        [number, states @ ..] => {
            if states.is_empty() {
                return Err(Unread::Other);
            }
            match number_of(number.as_slice()) {
                Some(number) => Ok(Line::Root(number, states_of(alloc, states)?)),
                None => Err(Unread::Other),
            }
        }
        [] => Err(Unread::Other),
    }
}

#[tactic(auto, unfolding(crate::specs::inner::Reading::rule_of))]
fn rule_of(alloc: Global, first: &Text, pieces: &[Text]) -> Result<Line, Unread>
    ensures { Gives (λ x. x) result (read.rule_of first.now pieces.now) }
{
    match pieces {
        [mark, rest @ ..] => {
            if !is(mark, b"=") {
                return Err(Unread::Other);
            }
            match state_of(first) {
                Some(state) => Ok(Line::Rule(state, term_of(alloc, rest)?)),
                None => Err(Unread::Other),
            }
        }
        [] => Err(Unread::Other),
    }
}

fn end_of(pieces: &[Text]) -> Result<Line, Unread>
    ensures { Gives (λ x. x) result (read.end_of pieces.now) }
{
    match pieces {
        [] => Ok(Line::Ends),
        _ => Err(Unread::Other),
    }
}

/// What the pieces of a line that is not passed over say.
#[tactic(auto, unfolding(crate::specs::inner::Reading::line_of_pieces))]
pub fn said(alloc: Global, pieces: &[Text]) -> Result<Line, Unread>
    ensures { Gives (λ x. x) result (read.line_of_pieces pieces.now) }
{
    match pieces {
        [] => Err(Unread::Other),
        [first, rest @ ..] => {
            if is(first, b"box") {
                box_of(alloc, rest)
            } else if is(first, b"root") {
                root_of(alloc, rest)
            } else if is(first, b"end") {
                end_of(rest)
            } else {
                rule_of(alloc, first, rest)
            }
        }
    }
}

#[tactic(auto, unfolding(crate::specs::inner::Reading::line_of))]
fn read_line(alloc: Global, bytes: &[u8]) -> Result<Line, Unread>
    ensures { Gives (λ x. x) result (read.line_of bytes.now) }
{
    match bytes {
        [] => Ok(Line::Skipped),
        [first, ..] => {
            if *first == b'#' {
                return Ok(Line::Skipped);
            }
            let pieces = pieces(alloc, bytes)?;
            said(alloc, pieces.as_slice())
        }
    }
}

/// What the bytes of a line, without its newline, say. None exactly where they say nothing.
///
/// # Errors
///
/// Want of memory.
#[tactic(auto, using(crate::proofs::WrittenLines::line_sound, crate::proofs::WrittenLines::line_unsaid))]
pub fn line_of(alloc: Global, bytes: &[u8]) -> Mem<Option<Line>>
    ensures { IfOk result (λ said. MatchOption said
        ((line : spec.Line) → Says bytes.now line → ⊥) (λ line. Says bytes.now line)) }
{
    match read_line(alloc, bytes) {
        Ok(line) => Ok(Some(line)),
        Err(Unread::Other) => Ok(None),
        Err(Unread::Memory) => Err(AllocError),
    }
}
