// Data and slots, with a comma between two.
ghost use Rattle.std.specs.Prelude.{◌≡◌, length, codes};
ghost use Rattle.fa_lines.specs.inner.Reading as read;
ghost use Rattle.fa_lines.specs.inner.Reading.{Gives};

use crate::line::{DatumText, SlotText};
use crate::texts::{datum_of, is, is_word, state_of};
use crate::unread::Unread;
use fore_base::list::{Copies, List};
use fore_base::text::Text;
use std::alloc::Global;

#[tactic(auto, unfolding(crate::specs::inner::Reading::field_front))]
fn field_front<'a>(
    alloc: Global,
    name: &Text,
    state: &Text,
    rest: &'a [Text],
) -> Result<(SlotText, &'a [Text]), Unread>
    ensures { Gives (λ x. (x.0, x.1.now)) result (read.field_front name.now state.now rest.now) }
{
    if !is_word(name) {
        return Err(Unread::Other);
    }
    match state_of(state) {
        Some(state) => Ok((SlotText::Field(name.copy(alloc)?, state), rest)),
        None => Err(Unread::Other),
    }
}

#[tactic(auto, unfolding(crate::specs::inner::Reading::link_front))]
fn link_front<'a>(
    alloc: Global,
    name: &Text,
    state: &Text,
    rest: &'a [Text],
) -> Result<(SlotText, &'a [Text]), Unread>
    ensures { Gives (λ x. (x.0, x.1.now)) result (read.link_front name.now state.now rest.now) }
{
    if !is_word(name) {
        return Err(Unread::Other);
    }
    match state_of(state) {
        Some(state) => Ok((SlotText::Link(name.copy(alloc)?, state), rest)),
        None => Err(Unread::Other),
    }
}

#[tactic(auto, unfolding(crate::specs::inner::Reading::hook_front))]
fn hook_front<'a>(
    alloc: Global,
    name: &Text,
    rest: &'a [Text],
) -> Result<(SlotText, &'a [Text]), Unread>
    ensures { Gives (λ x. (x.0, x.1.now)) result (read.hook_front name.now rest.now) }
{
    if !is_word(name) {
        return Err(Unread::Other);
    }
    Ok((SlotText::Hook(name.copy(alloc)?), rest))
}

/// The box edge behind `@` and a name, with the pieces behind it.
#[tactic(auto, unfolding(crate::specs::inner::Reading::box_front))]
fn box_front<'a>(
    alloc: Global,
    name: &Text,
    rest: &'a [Text],
) -> Result<(SlotText, &'a [Text]), Unread>
    ensures { Gives (λ x. (x.0, x.1.now)) result (read.box_front name.now rest.now) }
{
    match rest {
        [equals, state, after @ ..] => {
            if is(equals, b"=") {
                link_front(alloc, name, state, after)
            } else {
                hook_front(alloc, name, rest)
            }
        }
        _ => hook_front(alloc, name, rest),
    }
}

/// The slot at the front, with the pieces behind it.
#[tactic(auto, unfolding(crate::specs::inner::Reading::slot_front))]
fn slot_front<'a>(alloc: Global, pieces: &'a [Text]) -> Result<(SlotText, &'a [Text]), Unread>
    ensures { Gives (λ x. (x.0, x.1.now)) result (read.slot_front pieces.now) }
{
    match pieces {
        [first, second, rest @ ..] => {
            if is(first, b"@") {
                return box_front(alloc, second, rest);
            }
            match rest {
                [state, after @ ..] if is(second, b"=") => field_front(alloc, first, state, after),
                _ => Err(Unread::Other),
            }
        }
        _ => Err(Unread::Other),
    }
}

/// The datum at the front, with the pieces behind it.
#[tactic(auto, unfolding(crate::specs::inner::Reading::datum_front))]
fn datum_front<'a>(alloc: Global, pieces: &'a [Text]) -> Result<(DatumText, &'a [Text]), Unread>
    ensures { Gives (λ x. (x.0, x.1.now)) result (read.datum_front pieces.now) }
{
    match pieces {
        [name, equals, value, rest @ ..] => {
            if !is(equals, b"=") || !is_word(name) {
                return Err(Unread::Other);
            }
            match datum_of(value) {
                Some(datum) => Ok((
                    DatumText {
                        name: name.copy(alloc)?,
                        datum,
                    },
                    rest,
                )),
                None => Err(Unread::Other),
            }
        }
        _ => Err(Unread::Other),
    }
}

/// Whether a closing piece stands in front, and no comma, with the pieces behind it.
fn mark_front<'a>(close: &[u8], pieces: &'a [Text]) -> Result<(bool, &'a [Text]), Unread>
    ensures { Gives (λ x. (x.0, x.1.now)) result (read.mark_front close.now pieces.now) }
{
    match pieces {
        [mark, rest @ ..] => {
            if is(mark, close) {
                Ok((true, rest))
            } else if is(mark, b",") {
                Ok((false, rest))
            } else {
                Err(Unread::Other)
            }
        }
        [] => Err(Unread::Other),
    }
}

/// The slots at the front up to the closing bracket, with the pieces behind it.
#[tactic(auto, using(crate::proofs::ItemLemmas::items_step, crate::proofs::ItemLemmas::item_next))]
pub fn slots<'a>(alloc: Global, pieces: &'a [Text]) -> Result<(List<SlotText>, &'a [Text]), Unread>
    ensures { Gives (λ x. (x.0, x.1.now)) result
        (read.items read.slot_front (codes ")") (length pieces.now) pieces.now) }
{
    let mut found = List::new(alloc);
    let mut rest = pieces;
    for _i in 0..pieces.len() {
        let (slot, after) = slot_front(alloc, rest)?;
        let (closed, others) = mark_front(b")", after)?;
        found.push(slot)?;
        if closed {
            return Ok((found, others));
        }
        rest = others;
    }
    Err(Unread::Other)
}

/// The data at the front up to the closing bracket, with the pieces behind it.
#[tactic(auto, using(crate::proofs::ItemLemmas::items_step, crate::proofs::ItemLemmas::item_next))]
pub fn data<'a>(alloc: Global, pieces: &'a [Text]) -> Result<(List<DatumText>, &'a [Text]), Unread>
    ensures { Gives (λ x. (x.0, x.1.now)) result
        (read.items read.datum_front (codes "]") (length pieces.now) pieces.now) }
{
    let mut found = List::new(alloc);
    let mut rest = pieces;
    for _i in 0..pieces.len() {
        let (datum, after) = datum_front(alloc, rest)?;
        let (closed, others) = mark_front(b"]", after)?;
        found.push(datum)?;
        if closed {
            return Ok((found, others));
        }
        rest = others;
    }
    Err(Unread::Other)
}
