// An automaton cut by the signatures of its trees.

ghost use Rattle.std.specs.Prelude.{◌↔◌, ℕ, IsTrue, IfOk};
ghost use Rattle.fore_base.specs.Lists.{IsIn, Every, IsDistinct};
ghost use Rattle.ta_core.specs.Language.{IsTrim};
ghost use Rattle.fa_core.specs.Boxless.{HasNoBoxes};
ghost use Rattle.fa_signatures.specs.CutPieces.{AreCut};
ghost use Rattle.fa_signatures.specs.inner.CutPairs.{IsRootPair, AreRootMarks, AreCutBy, AreInRange, IsOver, IsPieceIn};
ghost use Rattle.fa_signatures.specs.inner.CutPairs.{WhereFound};

use crate::pairing::{Found, Pair, number_of, pair_up};
use fa_core::cells::has;
use fa_core::faces::BoxFace;
use fa_core::signature::RefMark;
use fa_sound::are_same;
use fore_base::list::{Copies, List};
use fore_base::memory::Mem;
use std::alloc::Global;
use ta_core::auto::Auto;
use ta_core::inhabited::is_empty;
use ta_core::trimming::trim;

/// The automaton cut by the signatures of its trees: for each of these a piece, which accepts the trees that have it.
/// Each state of a piece takes part in an accepted tree. Err is want of memory, also where numbers of states do not fit
/// 32 bits, or box edges give a root more than 1,024 fields.
pub fn cut_auto(alloc: Global, boxes: &[BoxFace], whole: &Auto) -> Mem<List<Auto>>
    ensures cut { IfOk result (AreCut boxes.now whole.now) }
    ensures trim { IfOk result (Every IsTrim) }
    ensures plain { HasNoBoxes whole.now → IfOk result (Every HasNoBoxes) }
{
    whole.known();
    let part = trim(alloc, whole)?;
    cut_trim(alloc, boxes, &part)
}

/// So for an automaton whose states all take part. Others are left out before: no condition on a forest speaks of their
/// trees, which may have signatures without end.
fn cut_trim(alloc: Global, boxes: &[BoxFace], whole: &Auto) -> Mem<List<Auto>>
    ensures cut { IfOk result (AreCut boxes.now whole.now) }
    ensures trim { IfOk result (Every IsTrim) }
{
    let found = pair_up(alloc, boxes, whole.rules.as_slice())?;
    let all = root_marks(alloc, found.pairs.as_slice(), whole.roots.as_slice())?;
    pieces(alloc, whole, &found, all.as_slice())
}

/// The pieces of these signatures.
fn pieces(alloc: Global, whole: &Auto, found: &Found, all: &[List<RefMark>]) -> Mem<List<Auto>>
    requires found { AreInRange found.now }
    requires apart { IsDistinct all.now }
    ensures { IfOk result (λ pieces. WhereFound whole.now found.now (λ bs. AreCutBy bs whole.now all.now pieces)) }
{
    let mut pieces = List::new(alloc);
    for marks in all {
        if let Some(piece) = piece(alloc, whole, found, marks.as_slice())? {
            pieces.push(piece)?;
        }
    }
    Ok(pieces)
}

/// The piece of the trees with this signature. None where there is no such tree.
fn piece(alloc: Global, whole: &Auto, found: &Found, marks: &[RefMark]) -> Mem<Option<Auto>>
    requires found { AreInRange found.now }
    ensures { IfOk result (λ made. WhereFound whole.now found.now (λ bs. IsPieceIn bs whole.now marks.now made)) }
{
    let over = auto_over(alloc, whole.roots.as_slice(), found, marks)?;
    let made = trim(alloc, &over)?;
    made.known();
    if is_empty(alloc, &made)? {
        return Ok(None);
    }
    Ok(Some(made))
}

/// The automaton over the pairs, in which those with these states and this signature are root states.
fn auto_over(alloc: Global, roots: &[u32], found: &Found, marks: &[RefMark]) -> Mem<Auto>
    requires { AreInRange found.now }
    ensures { IfOk result (IsOver found.now.pairs found.now.rules roots.now marks.now) }
{
    let states = number_of(found.pairs.len())?;
    let roots = places_with(alloc, found.pairs.as_slice(), roots, marks)?;
    let rules = found.rules.copy(alloc)?;
    Ok(Auto {
        states,
        roots,
        rules,
    })
}

/// The places of the pairs with these root states and this signature.
fn places_with(alloc: Global, pairs: &[Pair], roots: &[u32], marks: &[RefMark]) -> Mem<List<u32>>
    ensures { IfOk result (λ places. (k : ℕ) → IsIn k places ↔ IsRootPair pairs.now roots.now marks.now k) }
{
    let mut places = List::new(alloc);
    for (place, pair) in pairs.iter().enumerate() {
        if has(pair.0, roots) && are_same(pair.1.marks.as_slice(), marks) {
            let number = number_of(place)?;
            places.push(number)?;
        }
    }
    Ok(places)
}

/// The signatures of the pairs with these root states, each once.
fn root_marks(alloc: Global, pairs: &[Pair], roots: &[u32]) -> Mem<List<List<RefMark>>>
    ensures marks { IfOk result (AreRootMarks pairs.now roots.now) }
    ensures apart { IfOk result IsDistinct }
{
    let mut all = List::new(alloc);
    for pair in pairs {
        if has(pair.0, roots) && !are_among(pair.1.marks.as_slice(), all.as_slice()) {
            let marks = pair.1.marks.copy(alloc)?;
            all.push(marks)?;
        }
    }
    Ok(all)
}

/// Whether the signature is one of these.
fn are_among(marks: &[RefMark], all: &[List<RefMark>]) -> bool
    ensures { IsTrue result ↔ IsIn marks.now all.now }
{
    for other in all {
        if are_same(marks, other.as_slice()) {
            return true;
        }
    }
    false
}
