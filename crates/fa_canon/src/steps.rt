// Forests of a list, taken apart one after the other.

ghost use Rattle.std.specs.Prelude.{◌≡◌, [], ◌∷◌, IfOk};
ghost use Rattle.fore_base.specs.Lists.{Every};
ghost use Rattle.fa_core.specs.Boxless.{HasNoBoxes};
ghost use Rattle.fa_sound.specs.Soundness.{SoundForest};
ghost use Rattle.fa_canon.specs.inner.Steps.{IsSplitEach};

use fa_sound::Sound;
use fore_base::list::List;
use fore_base::memory::Mem;
use std::alloc::Global;

/// How a forest is taken apart.
pub trait Step {
    ghost accepts: { Self → SoundForest → Type 0 };

    ghost relates: { Self → SoundForest → SoundForest → Type 0 };

    /// The forests into which the forest is taken apart: where it stays as it is, itself. Err is want of memory.
    fn apply(&self, alloc: Global, forest: Sound) -> Mem<List<Sound>>
        requires { accepts self.now forest }
        ensures { IfOk result (λ made. IsSplitEach (relates self.now) (forest ∷ []) made) };
}

/// Each forest of the list taken apart. Err is want of memory.
pub fn on_each<S: Step>(alloc: Global, step: &S, forests: List<Sound>) -> Mem<List<Sound>>
    requires { Every (S.accepts step.now) forests }
    ensures { IfOk result (λ made. IsSplitEach (S.relates step.now) forests made) }
{
    let mut made = List::new(alloc);
    for forest in forests.into_vec() {
        let more = step.apply(alloc, forest)?;
        made.append(more)?;
    }
    Ok(made)
}

/// The forest alone, not copied. Err is want of memory.
pub fn alone(alloc: Global, forest: Sound) -> Mem<List<Sound>>
    ensures { IfOk result (λ made. made ≡ forest ∷ []) }
{
    let mut made = List::new(alloc);
    made.push(forest)?;
    Ok(made)
}
