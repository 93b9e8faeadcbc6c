// What rules make.
ghost use Rattle.std.specs.Prelude.{◌≡◌, [], ◌∷◌};
ghost use Rattle.fa_lines.specs.inner.Reading as read;
ghost use Rattle.fa_lines.specs.inner.Reading.{Gives};

use crate::items::{data, slots};
use crate::line::{DatumText, SlotText, Term};
use crate::texts::{is, is_word, number_of};
use crate::unread::Unread;
use fore_base::list::{Copies, List};
use fore_base::text::Text;
use std::alloc::Global;

#[tactic(auto, unfolding(crate::specs::inner::Reading::leaf_of))]
fn leaf_of(text: &Text) -> Result<Term, Unread>
    ensures { Gives (λ x. x) result (read.leaf_of text.now) }
{
    if is(text, b"null") {
        Ok(Term::Null)
    } else if is(text, b"uninit") {
        Ok(Term::Uninit)
    } else if is(text, b"dangling") {
        Ok(Term::Dangling)
    } else {
        Err(Unread::Other)
    }
}

fn no_slots(alloc: Global, pieces: &[Text]) -> Result<List<SlotText>, Unread>
    ensures { Gives (λ x. x) result (read.no_slots pieces.now) }
{
    if pieces.is_empty() {
        Ok(List::new(alloc))
    } else {
        Err(Unread::Other)
    }
}

#[tactic(auto, unfolding(crate::specs::inner::Reading::slots_of))]
fn slots_of(alloc: Global, pieces: &[Text]) -> Result<List<SlotText>, Unread>
    ensures { Gives (λ x. x) result (read.slots_of pieces.now) }
{
    match pieces {
        [] => Err(Unread::Other),
        [first, others @ ..] => {
            if is(first, b")") {
                return no_slots(alloc, others);
            }
            let (found, rest) = slots(alloc, pieces)?;
            if rest.is_empty() {
                Ok(found)
            } else {
                Err(Unread::Other)
            }
        }
    }
}

#[tactic(auto, unfolding(crate::specs::inner::Reading::cell_with))]
fn cell_with(
    alloc: Global,
    shape: &Text,
    datums: List<DatumText>,
    pieces: &[Text],
) -> Result<Term, Unread>
    ensures { Gives (λ x. x) result (read.cell_with shape.now datums pieces.now) }
{
    match pieces {
        [mark, rest @ ..] => {
            if !is(mark, b"(") {
                return Err(Unread::Other);
            }
            let slots = slots_of(alloc, rest)?;
            let shape = shape.copy(alloc)?;
            Ok(Term::Cell {
                shape,
                data: datums,
                slots,
            })
        }
        [] => Err(Unread::Other),
    }
}

#[tactic(auto, unfolding(crate::specs::inner::Reading::data_cell))]
fn data_cell(alloc: Global, shape: &Text, pieces: &[Text]) -> Result<Term, Unread>
    ensures { Gives (λ x. x) result (read.data_cell shape.now pieces.now) }
{
    let (datums, rest) = data(alloc, pieces)?;
    cell_with(alloc, shape, datums, rest)
}

#[tactic(auto, unfolding(crate::specs::inner::Reading::cell_of))]
fn cell_of(alloc: Global, shape: &Text, pieces: &[Text]) -> Result<Term, Unread>
    ensures { Gives (λ x. x) result (read.cell_of shape.now pieces.now) }
{
    match pieces {
        [mark, rest @ ..] => {
            if !is_word(shape) {
                return Err(Unread::Other);
            }
            if is(mark, b"[") {
                data_cell(alloc, shape, rest)
            } else {
                cell_with(alloc, shape, List::new(alloc), pieces)
            }
        }
        [] => Err(Unread::Other),
    }
}

#[tactic(auto, unfolding(crate::specs::inner::Reading::term_of))]
fn ref_of(word: &Text, number: &Text) -> Result<Term, Unread>
    ensures { Gives (λ x. x) result (read.term_of (word.now ∷ number.now ∷ [])) }
{
    if !is(word, b"ref") {
        return Err(Unread::Other);
    }
    match number_of(number.as_slice()) {
        Some(root) => Ok(Term::Ref(root)),
        None => Err(Unread::Other),
    }
}

/// The term that the pieces are.
#[tactic(auto, unfolding(crate::specs::inner::Reading::term_of))]
pub fn term_of(alloc: Global, pieces: &[Text]) -> Result<Term, Unread>
    ensures { Gives (λ x. x) result (read.term_of pieces.now) }
{
    match pieces {
        [] => Err(Unread::Other),
        [leaf] => leaf_of(leaf),
        [word, number] => ref_of(word, number),
        [shape, rest @ ..] => cell_of(alloc, shape, rest),
    }
}
