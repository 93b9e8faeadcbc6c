// Steps that make forests of a forest, taken with each forest of a list.

ghost use Rattle.std.specs.Prelude.{◌≡◌, [], ◌∷◌, List, IfOk};
ghost use Rattle.fore_base.specs.Lists.{IsIn, Every};
ghost use Rattle.fa_core.specs.declared.forest.Forest.{Forest};
ghost use Rattle.fa_sound.specs.Soundness.{SoundForest};
ghost use Rattle.fa_sound.specs.Unions.{forests};
ghost use Rattle.fa_opening.specs.Each.{OfSome};

use fa_sound::Sound;
use fore_base::list::{Copies, List};
use fore_base::memory::Mem;
use std::alloc::Global;

/// What makes forests of a forest.
pub trait Step {
    /// What it may be given.
    ghost accepts: { Self → SoundForest → Type 0 };

    /// What a forest and one that is made of it have to do with each other.
    ghost relates: { Self → SoundForest → SoundForest → Type 0 };

    /// The forest goes into those of the list: they lose nothing of it.
    ghost goes_into: { Self → SoundForest → List Forest → Type 0 };

    /// The forests that are made of the forest. Err is want of memory.
    fn apply(&self, alloc: Global, part: &Sound) -> Mem<List<Sound>>
        requires { accepts self.now part.now }
        ensures each { IfOk result (Every (relates self.now part.now)) }
        ensures whole { IfOk result (λ made. goes_into self.now part.now (forests made)) };

    /// It goes into more of them too.
    ghost goes_on: { (step : Self) (S : SoundForest) (Gs Hs : List Forest)
        → ((G : Forest) → IsIn G Gs → IsIn G Hs) → goes_into step S Gs → goes_into step S Hs };
}

/// The forests that the step makes of those of the list, one after the other. Err is want of memory.
pub fn on_each<S: Step>(alloc: Global, step: &S, parts: &[Sound]) -> Mem<List<Sound>>
    requires { Every (S.accepts step.now) parts.now }
    ensures each { IfOk result (Every (OfSome (S.relates step.now) parts.now)) }
    ensures whole { IfOk result (λ made. (F : SoundForest) → IsIn F parts.now
        → S.goes_into step.now F (forests made)) }
{
    let mut made = List::new(alloc);
    for part in parts {
        let more = step.apply(alloc, part)?;
        made.append(more)?;
    }
    Ok(made)
}

/// The forest alone. Err is want of memory.
pub fn as_it_is(alloc: Global, forest: &Sound) -> Mem<List<Sound>>
    ensures { IfOk result (λ made. made ≡ forest.now ∷ []) }
{
    let mut made = List::new(alloc);
    made.push(forest.copy(alloc)?)?;
    Ok(made)
}
