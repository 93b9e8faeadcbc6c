// Where two forests differ that can be joined.

ghost use Rattle.std.specs.Prelude.{◌≡◌, ◌↔◌, length, IsTrue, IfOk, MatchOption};
ghost use Rattle.fore_base.specs.Lists.{Every};
ghost use Rattle.ta_core.specs.Language.{HasSameLanguage};
ghost use Rattle.ta_core.specs.Single.{HasOneTop};
ghost use Rattle.fa_join.specs.Joinable.{Joinable};
ghost use Rattle.fa_join.specs.declared.comparing.Apart.TheVariants.{At};
ghost use Rattle.fa_join.specs.inner.Apart.{IsApart};
ghost use Rattle.fa_join.specs.inner.Differing.{CanJoin, IsBelow, LookAlike};

use crate::comparing::{Apart, autos_apart, states_apart};
use crate::looks::look_alike;
use crate::marks::have_same_marks;
use fa_sound::{Sound, component};
use fa_split::children_of;
use fore_base::memory::Mem;
use std::alloc::{AllocError, Global};

/// Where two forests differ that can be joined.
#[derive(Clone, Copy, PartialEq, Eq)]
pub enum Difference {
    /// Nowhere: they have the same languages.
    Nowhere,
    /// In the child of this number below this root.
    Child { root: u32, child: usize },
}

/// Whether the two forests can be joined: they have the same targets, data and languages, but for one child at most of
/// one root, where the signatures are equal. Both stand over one face, and have one rule at each root, as canonical
/// forests do. Err is want of memory.
pub fn joinable(alloc: Global, left: &Sound, right: &Sound) -> Mem<bool>
    requires face { left.now.face ≡ right.now.face }
    requires left { Every HasOneTop left.now.forest.autos }
    requires right { Every HasOneTop right.now.forest.autos }
    ensures { IfOk result (λ yes. IsTrue yes ↔ Joinable left.now.face.boxes left.now.forest right.now.forest) }
{
    match compare(alloc, left, right)? {
        Some(_) => Ok(true),
        None => Ok(false),
    }
}

/// Where the two forests differ, None exactly where they cannot be joined. What takes little time is compared before
/// any language.
pub fn compare(alloc: Global, left: &Sound, right: &Sound) -> Mem<Option<Difference>>
    requires face { left.now.face ≡ right.now.face }
    requires left { Every HasOneTop left.now.forest.autos }
    requires right { Every HasOneTop right.now.forest.autos }
    ensures { IfOk result
        (λ found. MatchOption found (Joinable left.now.face.boxes left.now.forest right.now.forest → ⊥)
        (CanJoin left.now.face.boxes left.now.forest right.now.forest)) }
{
    left.known();
    if !look_alike(left.forest(), right.forest()) {
        return Ok(None);
    }
    let lefts = left.forest().autos.as_slice();
    let rights = right.forest().autos.as_slice();
    match autos_apart(alloc, lefts, rights)? {
        Apart::Nowhere => Ok(Some(Difference::Nowhere)),
        Apart::At(place) => differing_below(alloc, left, right, root_of(place)?),
        Apart::More => Ok(None),
    }
}

/// Where the two forests differ, which differ at this root alone.
fn differing_below(alloc: Global, left: &Sound, right: &Sound, root: u32) -> Mem<Option<Difference>>
    requires face { left.now.face ≡ right.now.face }
    requires left { Every HasOneTop left.now.forest.autos }
    requires right { Every HasOneTop right.now.forest.autos }
    requires alike { LookAlike left.now.forest right.now.forest }
    requires apart { IsApart HasSameLanguage left.now.forest.autos right.now.forest.autos
        (length left.now.forest.autos) (At root) }
    ensures { IfOk result
        (λ found. MatchOption found (Joinable left.now.face.boxes left.now.forest right.now.forest → ⊥)
        (CanJoin left.now.face.boxes left.now.forest right.now.forest)) }
{
    match children_apart(alloc, left, right, root)? {
        Apart::Nowhere => unreachable!(),
        Apart::At(child) => {
            if have_same_marks(left, right, root, child) {
                Ok(Some(Difference::Child { root, child }))
            } else {
                Ok(None)
            }
        }
        Apart::More => Ok(None),
    }
}

/// The places at which the children below the root's one rule have other trees.
fn children_apart(alloc: Global, left: &Sound, right: &Sound, root: u32) -> Mem<Apart>
    requires left { Every HasOneTop left.now.forest.autos }
    requires right { Every HasOneTop right.now.forest.autos }
    requires alike { LookAlike left.now.forest right.now.forest }
    requires apart { IsApart HasSameLanguage left.now.forest.autos right.now.forest.autos
        (length left.now.forest.autos) (At root) }
    ensures { IfOk result (IsBelow left.now.face.boxes left.now.forest right.now.forest root) }
{
    let first = component(left.forest(), root);
    let second = component(right.forest(), root);
    first.known();
    second.known();
    let apart = states_apart(
        alloc,
        first,
        second,
        children_of(first),
        children_of(second),
    )?;
    Ok(apart)
}

/// The root of the component at the place. Where the number does not fit 32 bits the answer is want of memory.
fn root_of(place: usize) -> Mem<u32>
    ensures { IfOk result (λ root. root ≡ place) }
{
    if place > u32::MAX as usize {
        return Err(AllocError);
    }
    Ok(place as u32)
}
