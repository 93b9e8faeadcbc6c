// Forests cut by the signatures of their components.

ghost use Rattle.std.specs.Prelude.{◌≡◌, [], ◌∷◌, IfOk};
ghost use Rattle.fore_base.specs.Lists.{IsIn, Every};
ghost use Rattle.ta_core.specs.Auto.{Automaton};
ghost use Rattle.ta_core.specs.Language.{IsBarren};
ghost use Rattle.fa_core.specs.Boxless.{HasNoBoxes};
ghost use Rattle.fa_core.specs.Filled.{IsFilled};
ghost use Rattle.fa_core.specs.Member.{Regroups, RegroupsInto};
ghost use Rattle.fa_core.specs.declared.boxes.BoxDef.{BoxDef};
ghost use Rattle.fa_sound.specs.Soundness.{IsSigned};
ghost use Rattle.fa_sound.specs.Unions.{IsUnionOf, forests};
ghost use Rattle.fa_signatures.specs.CutForests.{AreCutForests};

use crate::parts::product_forests;
use fa_core::faces::Face;
use fa_core::forest::Forest;
use fa_sound::Sound;
use fore_base::list::List;
use fore_base::memory::Mem;
use std::alloc::Global;

/// The forest cut by the signatures of its components: for each choice of one signature of each component the sound
/// forest of the trees that have them. A component without trees leaves no forest. Err is want of memory,
/// also where numbers of states do not fit 32 bits.
pub fn split_signatures(alloc: Global, forest: &Forest, face: &Face) -> Mem<List<Sound>>
    requires filled { IsFilled face.now forest.now }
    ensures face { IfOk result (Every (λ s. s.face ≡ face.now)) }
    ensures cut { IfOk result (λ list. AreCutForests face.now.boxes forest.now (forests list)) }
    ensures regroups { IfOk result (Every (λ s. (T : List BoxDef) → Regroups T forest.now s.forest)) }
    ensures lost { IfOk result (λ list. (T : List BoxDef) → RegroupsInto T forest.now (forests list)) }
    ensures members { IfOk result (λ list. IsUnionOf forest.now (forests list)) }
    ensures plain { Every HasNoBoxes forest.now.autos → IfOk result (Every (λ s. Every HasNoBoxes s.forest.autos)) }
    ensures empty { IfOk result (λ list. (a : Automaton) → IsIn a forest.now.autos → IsBarren a → list ≡ []) }
{
    sound_forests(alloc, forest, face)
}

/// The parts of the forest. One that is sound is its own only part, so its automata stay as they are.
fn sound_forests(alloc: Global, forest: &Forest, face: &Face) -> Mem<List<Sound>>
    requires filled { IsFilled face.now forest.now }
    ensures face { IfOk result (Every (λ s. s.face ≡ face.now)) }
    ensures cut { IfOk result (λ list. AreCutForests face.now.boxes forest.now (forests list)) }
{
    match Sound::make(alloc, forest, face)? {
        Some(sound) => only(alloc, sound),
        None => product_forests(alloc, forest, face),
    }
}

fn only(alloc: Global, sound: Sound) -> Mem<List<Sound>>
    ensures list { IfOk result (λ list. list ≡ sound ∷ []) }
    ensures signed { IsSigned sound }
{
    sound.known();
    let mut list = List::new(alloc);
    list.push(sound)?;
    Ok(list)
}
