// A root merged into the one whose trees refer to it, as a sound forest. Where the trees of some state of the merged
// component have several signatures, that component is cut by signature. All of its trees have one, so one piece is
// left.

ghost use Rattle.std.specs.Prelude.{◌≡◌, List, length, IfOk};
ghost use Rattle.fore_base.specs.Lists.{Every};
ghost use Rattle.fa_core.specs.Boxless.{HasNoBoxes};
ghost use Rattle.fa_merge.specs.Merged.{HasTreesOf, lowered, merged_at};
ghost use Rattle.fa_merge.specs.inner.Lone.{IsLone};
ghost use Rattle.fa_signatures.specs.CutPieces.{IsPiece};
ghost use Rattle.fa_sound.specs.Components.{component_at};

use crate::merging::merge_into;
use fa_core::forest::Forest;
use fa_signatures::cut_auto;
use fa_sound::{Sound, component, have_no_boxes, replace};
use fore_base::memory::Mem;
use std::alloc::Global;
use ta_core::auto::Auto;

/// The root merged into this one. Err is want of memory.
pub fn merge_at(alloc: Global, forest: &Sound, root: u32, into: u32, count: u32) -> Mem<Sound>
    requires count { count ≡ length forest.now.forest.autos }
    requires lone { IsLone forest.now.forest root into }
    ensures trees { IfOk result (λ made. HasTreesOf (merged_at root into forest.now.forest) made.forest) }
    ensures plain { Every HasNoBoxes forest.now.forest.autos
        → IfOk result (λ made. made.forest ≡ merged_at root into forest.now.forest) }
    ensures face { IfOk result (λ made. made.face ≡ forest.now.face) }
{
    let made = merge_into(alloc, forest.forest(), root, into, count)?;
    if have_no_boxes(forest.forest().autos.as_slice()) {
        return plain_sound(alloc, forest, made, root, into);
    }
    boxed_sound(alloc, forest, &made, root, into)
}

/// The merged forest, which is sound where there are no box edges.
fn plain_sound(alloc: Global, forest: &Sound, made: Forest, root: u32, into: u32) -> Mem<Sound>
    requires lone { IsLone forest.now.forest root into }
    requires plain { Every HasNoBoxes forest.now.forest.autos }
    requires made { made ≡ merged_at root into forest.now.forest }
    ensures forest { IfOk result (λ s. s.forest ≡ made) }
    ensures face { IfOk result (λ s. s.face ≡ forest.now.face) }
{
    forest.known();
    Sound::of(alloc, made, forest.face())
}

/// The merged forest, if it is sound, and else with its merged component cut.
fn boxed_sound(alloc: Global, forest: &Sound, made: &Forest, root: u32, into: u32) -> Mem<Sound>
    requires lone { IsLone forest.now.forest root into }
    requires made { made.now ≡ merged_at root into forest.now.forest }
    ensures trees { IfOk result (λ s. HasTreesOf made.now s.forest) }
    ensures face { IfOk result (λ s. s.face ≡ forest.now.face) }
{
    match Sound::make(alloc, made, forest.face())? {
        Some(sound) => Ok(sound),
        None => cut_at(alloc, forest, made, root, into),
    }
}

/// The merged forest with its merged component cut by signature.
fn cut_at(alloc: Global, forest: &Sound, made: &Forest, root: u32, into: u32) -> Mem<Sound>
    requires lone { IsLone forest.now.forest root into }
    requires made { made.now ≡ merged_at root into forest.now.forest }
    ensures trees { IfOk result (λ s. HasTreesOf made.now s.forest) }
    ensures face { IfOk result (λ s. s.face ≡ forest.now.face) }
{
    forest.known();
    let place = lowered_root(root, into);
    let boxes = forest.face().boxes.as_slice();
    let mut pieces = cut_auto(alloc, boxes, component(made, place))?;
    match pieces.pop() {
        Some(piece) => with_piece(alloc, forest, made, root, into, piece),
        None => unreachable!(),
    }
}

/// The merged forest with this piece of the merged component in its place.
fn with_piece(
    alloc: Global,
    forest: &Sound,
    made: &Forest,
    root: u32,
    into: u32,
    piece: Auto,
) -> Mem<Sound>
    requires lone { IsLone forest.now.forest root into }
    requires made { made.now ≡ merged_at root into forest.now.forest }
    requires piece { IsPiece forest.now.face.boxes (component_at made.now.autos (lowered root into)) piece }
    ensures trees { IfOk result (λ s. HasTreesOf made.now s.forest) }
    ensures face { IfOk result (λ s. s.face ≡ forest.now.face) }
{
    forest.known();
    let place = lowered_root(root, into);
    let cut = replace(alloc, made, place, piece)?;
    Sound::of(alloc, cut, forest.face())
}

/// The number of the one root where the other is taken out.
fn lowered_root(root: u32, other: u32) -> u32
    ensures { result ≡ lowered root other }
{
    if root < other { other - 1 } else { other }
}
