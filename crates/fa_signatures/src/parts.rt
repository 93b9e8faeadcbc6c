// The parts of a forest: with one piece of each component.

ghost use Rattle.std.specs.Prelude.{◌≡◌, map, IsTrue, IfOk};
ghost use Rattle.fore_base.specs.Lists.{IsIn, Every, Paired};
ghost use Rattle.ta_core.specs.Auto.{Automaton};
ghost use Rattle.ta_core.specs.Language.{IsBarren};
ghost use Rattle.fa_core.specs.Filled.{IsFilled};
ghost use Rattle.fa_signatures.specs.CutPieces.{AreCut, IsPiece};
ghost use Rattle.fa_sound.specs.Unions.{forests};
ghost use Rattle.fa_signatures.specs.CutForests.{AreCutForests};
ghost use Rattle.fa_signatures.specs.inner.CutProducts.{with_autos};

use crate::cutting::cut_auto;
use crate::products::product;
use fa_core::faces::{BoxFace, Face};
use fa_core::forest::Forest;
use fa_sound::Sound;
use fore_base::list::{Copies, List};
use fore_base::memory::Mem;
use std::alloc::Global;
use ta_core::auto::Auto;
use ta_core::inhabited::is_empty;

/// The forests with one piece of each component. Where a component is empty there is none.
pub fn product_forests(alloc: Global, forest: &Forest, face: &Face) -> Mem<List<Sound>>
    requires filled { IsFilled face.now forest.now }
    ensures face { IfOk result (Every (λ s. s.face ≡ face.now)) }
    ensures cut { IfOk result (λ list. AreCutForests face.now.boxes forest.now (forests list)) }
{
    if has_empty(alloc, forest.autos.as_slice())? {
        return Ok(List::new(alloc));
    }
    part_forests(alloc, forest, face)
}

fn part_forests(alloc: Global, forest: &Forest, face: &Face) -> Mem<List<Sound>>
    requires filled { IsFilled face.now forest.now }
    ensures face { IfOk result (Every (λ s. s.face ≡ face.now)) }
    ensures cut { IfOk result (λ list. AreCutForests face.now.boxes forest.now (forests list)) }
{
    let pieces = pieces_each(alloc, face.boxes.as_slice(), forest.autos.as_slice())?;
    let choices = product(alloc, pieces.as_slice())?;
    forests(alloc, forest, face, choices.as_slice())
}

/// Whether one of the automata accepts nothing. There is then no choice of trees, and nothing is known of the trees of
/// the others: what is seen of these may have no end.
fn has_empty(alloc: Global, autos: &[Auto]) -> Mem<bool>
    ensures { IfOk result (λ yes. IsTrue yes → (a : Automaton) × IsIn a autos.now × IsBarren a) }
{
    for whole in autos {
        if is_empty(alloc, whole)? {
            return Ok(true);
        }
    }
    Ok(false)
}

/// The pieces of each of the automata.
pub fn pieces_each(alloc: Global, boxes: &[BoxFace], autos: &[Auto]) -> Mem<List<List<Auto>>>
    ensures { IfOk result (Paired (AreCut boxes.now) autos.now) }
{
    let mut all = List::new(alloc);
    for whole in autos {
        let pieces = cut_auto(alloc, boxes, whole)?;
        all.push(pieces)?;
    }
    Ok(all)
}

/// The sound forests with the components of these choices.
fn forests(alloc: Global, forest: &Forest, face: &Face, choices: &[List<Auto>]) -> Mem<List<Sound>>
    requires filled { IsFilled face.now forest.now }
    requires pieces { Every (Paired (IsPiece face.now.boxes) forest.now.autos) choices.now }
    ensures face { IfOk result (Every (λ s. s.face ≡ face.now)) }
    ensures forests { IfOk result (λ list. forests list ≡ map (with_autos forest.now) choices.now) }
{
    let mut list = List::new(alloc);
    for autos in choices {
        let made = sound_with(alloc, forest, face, autos)?;
        list.push(made)?;
    }
    Ok(list)
}

/// The sound forest with these components.
fn sound_with(alloc: Global, forest: &Forest, face: &Face, autos: &List<Auto>) -> Mem<Sound>
    requires filled { IsFilled face.now forest.now }
    requires pieces { Paired (IsPiece face.now.boxes) forest.now.autos autos.now }
    ensures face { IfOk result (λ s. s.face ≡ face.now) }
    ensures forest { IfOk result (λ s. s.forest ≡ with_autos forest.now autos.now) }
{
    let made = forest_with(alloc, forest, autos)?;
    Sound::of(alloc, made, face)
}

/// The forest with these components.
pub fn forest_with(alloc: Global, forest: &Forest, autos: &List<Auto>) -> Mem<Forest>
    ensures { IfOk result (λ made. made ≡ with_autos forest.now autos.now) }
{
    Ok(Forest {
        autos: autos.copy(alloc)?,
        vars: forest.vars.copy(alloc)?,
        data_vars: forest.data_vars.copy(alloc)?,
    })
}
