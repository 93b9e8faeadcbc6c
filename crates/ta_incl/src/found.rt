// The pairs that the search has found, and which of them cover which.

ghost use Rattle.std.specs.Prelude.{◌≡◌, ◌↔◌, ◌⊎◌, ◌++◌, false, slice_index_or, IsTrue, IfOk};
ghost use Rattle.fore_base.specs.Marks.{IsMarked};
ghost use Rattle.ta_incl.specs.inner.Founds.{IsPart, IsCover, HasCover, AreLasting};

use crate::order::{Order, is_below};
use fore_base::list::List;
use fore_base::memory::Mem;
use std::alloc::Global;

/// A state of the left automaton with a set of states of the right one, as one mark for each, and with those states
/// that are below one of the set; and what it was derived from: the place of a rule of the left automaton, and for each
/// child of it the place of the found pair that stands there.
#[derive(Drop)]
pub struct Found {
    pub state: u32,
    pub marks: List<bool>,
    pub under: List<bool>,
    pub rule: usize,
    pub from: List<usize>,
}

/// Whether a pair of one of the lists covers this one.
pub fn is_covered(order: &Order, found: &[Found], added: &[Found], pair: &Found) -> bool
    ensures { IsTrue result ↔ HasCover order.now (found.now ++ added.now) pair.now }
{
    has_cover(order, found, pair) || has_cover(order, added, pair)
}

/// Whether some pair of the list covers this one.
pub fn has_cover(order: &Order, found: &[Found], pair: &Found) -> bool
    ensures { IsTrue result ↔ HasCover order.now found.now pair.now }
{
    for other in found {
        if covers(order, other, pair) {
            return true;
        }
    }
    false
}

/// A mark for each pair that no later one covers.
pub fn lasting(alloc: Global, order: &Order, found: &[Found]) -> Mem<List<bool>>
    ensures { IfOk result (AreLasting order.now found.now) }
{
    let mut marks = List::new(alloc);
    let mut rest = found;
    'pairs: while let Some((pair, later)) = rest.split_first() {
        let lasts = !has_cover(order, later, pair);
        marks.push(lasts)?;
        rest = later;
    }
    Ok(marks)
}

/// Such marks where further pairs stand behind the found ones, by those that these had.
pub fn still_lasting(
    alloc: Global,
    order: &Order,
    found: &[Found],
    live: &[bool],
    added: &[Found],
) -> Mem<List<bool>>
    requires { AreLasting order.now found.now live.now }
    ensures { IfOk result (AreLasting order.now (found.now ++ added.now)) }
{
    let mut marks = List::new(alloc);
    let mut rest = found;
    let mut place: usize = 0;
    'pairs: while let Some((pair, later)) = rest.split_first() {
        let lasts = still_lasts(order, live, place, added, pair);
        marks.push(lasts)?;
        rest = later;
        place += 1;
    }
    let more = lasting(alloc, order, added)?;
    marks.append(more)?;
    Ok(marks)
}

/// Whether the pair has a mark at its place, and none of the further pairs covers it.
fn still_lasts(order: &Order, live: &[bool], place: usize, added: &[Found], pair: &Found) -> bool
    ensures yes { IsTrue result → IsMarked live.now place × (HasCover order.now added.now pair.now → ⊥) }
    ensures no { result ≡ false → (slice_index_or live.now place false ≡ false)
        ⊎ HasCover order.now added.now pair.now }
{
    if !mark_at(live, place) {
        return false;
    }
    !has_cover(order, added, pair)
}

/// Whether the pair covers the other one: the other's state is below its own, and each state of its set is below one of
/// the other's.
fn covers(order: &Order, pair: &Found, other: &Found) -> bool
    ensures { IsTrue result ↔ IsCover order.now pair.now other.now }
{
    is_below(order, other.state, pair.state)
        && are_part(pair.marks.as_slice(), other.under.as_slice())
}

/// Whether the other set has a mark wherever this one has.
fn are_part(marks: &[bool], other: &[bool]) -> bool
    ensures { IsTrue result ↔ IsPart marks.now other.now }
{
    for (place, mark) in marks.iter().enumerate() {
        if *mark && !mark_at(other, place) {
            return false;
        }
    }
    true
}

/// Whether the place has a mark. One past the end has none.
pub fn mark_at(marks: &[bool], place: usize) -> bool
    ensures { result ≡ slice_index_or marks.now place false }
{
    match marks.get(place) {
        Some(mark) => *mark,
        None => false,
    }
}
